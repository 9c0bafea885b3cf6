// Continuity: step 4 of document 01, "Judging one packet", as a judgement on the table byte. Each sentence of the step stands
// above what it says, in the paper's order (docs/TRAINING.md).

#![tactic(auto)]

ghost use Rattle.std.specs.Prelude.{◌≡◌, ◌<◌};
ghost use Rattle.continuity.specs.Continuity.{known_byte, counted_of};

use header::Header;

// What step 4 leaves: the PID's next table byte, whether there is an event (0x000E), whether the half-built section is kept,
// and whether the payload is taken.
#[derive(Clone, Copy, PartialEq, Eq, Debug)]
pub struct Counted {
    pub byte: u8,
    pub event: bool,
    pub keep: bool,
    pub take: bool,
}

// Whether a table byte is one that these calls leave: 0, 16..31 or 48..63.
pub fn known_byte(b: u8) -> bool
    ensures { result ≡ known_byte b }
{
    matches!(b, 0 | 16..=31 | 48..=63)
}

// Step 4 on the table byte of the packet's PID.
#[tactic(auto, unfolding(crate::specs::Continuity::counted_of))]
pub fn judge(byte: u8, h: Header) -> Counted
    requires { h.counter < 16 }
    ensures { result ≡ counted_of byte h }
{
    let counter = h.counter;
    let control_10 = h.control == 0b10;
    let control_11 = h.control == 0b11;

    // Table byte: 0 unseen,
    let unseen = byte == 0;
    // 16+c last counter c,
    let last = byte % 16;
    // 48+c the same and repeated once.
    let repeated = 48 <= byte;

    // Control 10 needs adaptation length 183, control 11 needs 0 to 182. Length 0 has no discontinuity indicator: it counts as 0.
    // With a wrong length it counts as 0 too [so far `header`: `h.right`, `h.discontinuity`]
    // and there is no payload to take [control 10 has none]
    let payload = h.right && !control_10;
    // (control 11 also drops the PID's half-built section).
    let section = h.right || !control_11;

    // A set discontinuity indicator, or an unseen PID: byte becomes 16+counter, no event, half-built section dropped, payload taken.
    if h.discontinuity || unseen {
        return Counted {
            byte: 16 + counter,
            event: false,
            keep: false,
            take: payload,
        };
    }
    // Control 10: an equal counter changes nothing;
    if control_10 && counter == last {
        return Counted {
            byte,
            event: false,
            keep: section,
            take: false,
        };
    }
    // another gives 0x000E and 16+counter, half-built section kept.
    if control_10 {
        return Counted {
            byte: 16 + counter,
            event: true,
            keep: section,
            take: false,
        };
    }
    // Controls 01 and 11: counter c+1 mod 16 gives 16+counter, payload taken.
    if counter == (last + 1) % 16 {
        return Counted {
            byte: 16 + counter,
            event: false,
            keep: section,
            take: payload,
        };
    }
    // Counter c once is a repeat: 48+c, payload skipped, no event.
    if counter == last && !repeated {
        return Counted {
            byte: 48 + counter,
            event: false,
            keep: section,
            take: false,
        };
    }
    // Counter c again: 0x000E, byte stays, payload skipped.
    if counter == last {
        return Counted {
            byte,
            event: true,
            keep: section,
            take: false,
        };
    }
    // Any other: 0x000E, 16+counter, half-built section dropped, payload taken.
    Counted {
        byte: 16 + counter,
        event: true,
        keep: false,
        take: payload,
    }
}
