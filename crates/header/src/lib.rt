// The header of a transport packet and its adaptation field (document 01, "Judging one packet"; ISO/IEC
// 13818-1, 2.4.3.2 to 2.4.3.5).

#![tactic(auto)]

ghost use Rattle.std.specs.Prelude.{◌≡◌, ◌+◌, ◌*◌, ◌%◌, ◌<◌, length};
ghost use Rattle.header.specs.Header.{packet_size, right_length, payload_place, header_of};

// The bytes of a packet, and the first of them.
pub const PACKET_SIZE: usize = 188;

pub const SYNC_BYTE: u8 = 0x47;

// What steps 2 to 5 look at. Control stays the packet's two bits, as the steps name them (0b01 to 0b11): an enum is no plainer.
#[derive(Clone, Copy, PartialEq, Eq, Debug)]
pub struct Header {
    pub error: bool,
    pub start: bool,
    pub pid: u16,
    pub scrambled: bool,
    pub control: u8,
    pub counter: u8,
    // the adaptation length is as its control needs it
    pub right: bool,
    pub discontinuity: bool,
    // where the payload begins; 188 where there is none, so that the packet from here on is the payload either way
    pub payload: usize,
}

// Whether an adaptation length is as its control needs it.
fn right_length(control: u8, length: u8) -> bool
    ensures { result ≡ right_length control length }
{
    match control {
        // Control 10 needs adaptation length 183,
        0b10 => length == 183,
        // control 11 needs 0 to 182.
        0b11 => length <= 182,
        _ => true,
    }
}

// Where the payload begins.
fn payload_place(control: u8, length: u8) -> usize
    ensures { result ≡ payload_place control length }
{
    match control {
        0b01 => 4,
        0b11 if right_length(control, length) => 5 + usize::from(length),
        _ => PACKET_SIZE,
    }
}

// The 13 PID bits in two bytes.
fn pid_bits(high: u8, low: u8) -> u16
    ensures { (result ≡ high % 32 * 256 + low) × (result < 8192) }
{
    u16::from_be_bytes([high % 32, low])
}

// The fields of a packet, which a host lends as a slice of any length: its length is a clause, behind refusal 1, and no type.
#[tactic(auto, unfolding(crate::specs::Header::header_of))]
pub fn read(p: &[u8]) -> Header
    requires { length p.now ≡ packet_size }
    ensures { (result ≡ header_of p.now) × (result.pid < 8192) }
{
    let control = p[3] / 16 % 4;
    let length = p[4];
    let right = right_length(control, length);
    Header {
        error: 128 <= p[1],
        start: p[1] / 64 % 2 == 1,
        pid: pid_bits(p[1], p[2]),
        scrambled: 64 <= p[3],
        control,
        counter: p[3] % 16,
        right,
        // Length 0 has no discontinuity indicator: it counts as 0. With a wrong length it counts as 0 too [`&&` was tried here, and
        // is slower]
        discontinuity: (0b10 <= control) & right & (0 < length) & (128 <= p[5]),
        payload: payload_place(control, length),
    }
}
