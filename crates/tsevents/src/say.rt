// What is said on standard error, a line each time.
use std::fmt;
use std::fmt::InlineText;
use std::io::Error;
use textlog::MALFORMED_LINE;

// Numbers, as the machine's refusal is one: 8 is no refusal of a call.
const TIME_TOO_LATE: u32 = 4;

const TIME_BACKWARDS: u32 = 6;

// What a refusal of a line means.
fn reason(refusal: u32) -> &'static str {
    match refusal {
        TIME_TOO_LATE => ": time above 2^62",
        TIME_BACKWARDS => ": time below the one before",
        MALFORMED_LINE => ": malformed line",
        _ => "",
    }
}

// An error as the system tells it; nothing where the system gave none.
#[derive(Clone, Copy, Drop)]
struct Why {
    told: InlineText<256>,
}

impl Why {
    fn of(why: Option<Error>) -> Why {
        match why {
            Some(error) if error.raw_os_error().is_some() => Why {
                told: InlineText::of(error),
            },
            _ => Why {
                told: InlineText::new(),
            },
        }
    }
}

// The system's words, without the number.
impl fmt::Display for Why {
    fn fmt<W: fmt::Write>(&self, f: &mut fmt::Formatter<W>) -> fmt::Result {
        match self.told.as_str().rsplit_once(" (os error ") {
            Some((words, _)) => write!(f, ": {words}"),
            None => Ok(()),
        }
    }
}

// Where nobody takes it, it is not said.
fn say(rt: HostRuntime, line: &[u8]) {
    let _ = steady::write_whole(&rt, &mut rt.stderr(), line);
}

// How the program is called.
pub fn usage(rt: HostRuntime) {
    say(rt, b"usage: tsevents [FILE]\n");
}

// What failed, and what with, and why. A name need be no text, so the line is put together of bytes; a piece that
// does not fit it is left out.
pub fn failed(rt: HostRuntime, what: &str, name: &[u8], why: Option<Error>) {
    let said = InlineText::<512>::of(Why::of(why));
    let mut text = [0u8; 8192];
    let mut at: usize = 0;
    for piece in [what.as_bytes(), name, said.as_str().as_bytes(), b"\n"] {
        if piece.len() <= text.len() - at {
            octets::copy(&mut text, at, piece);
            at += piece.len();
        }
    }
    say(rt, &text[..at]);
}

// What failed behind a line of the log, and why.
pub fn failed_behind(rt: HostRuntime, what: &str, line: u64, why: Option<Error>) {
    let said = Why::of(why);
    let text = InlineText::<512>::of(format_args!("{what} behind line {line}{said}\n"));
    say(rt, text.as_str().as_bytes());
}

// That a line of the log is refused.
pub fn refused(rt: HostRuntime, line: u64, refusal: u32) {
    let why = reason(refusal);
    let text = InlineText::<512>::of(format_args!(
        "tsevents: line {line} refused with {refusal}{why}\n"
    ));
    say(rt, text.as_str().as_bytes());
}
