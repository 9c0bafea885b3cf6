// The calls of the card as a host makes them, on numbers and slices. The state is lent as two arrays (crate
// `arrays`). Crate `songpigeon_c` exports them to C.

#![tactic(auto)]

mod descriptors;
mod fields;
mod lent;

ghost use Rattle.std.specs.Prelude.{◌≡◌};
ghost use Rattle.songpigeon.specs.Version.{version};

pub use descriptors::{
    songpigeon_testdata_descriptor, songpigeon_testdata_elementary_id, songpigeon_testdata_gps,
    songpigeon_testdata_other, songpigeon_testdata_program, songpigeon_testdata_reduced_pcr,
};
pub use fields::{songpigeon_severity, songpigeon_testdata_read, songpigeon_testdata_write};
pub use lent::{songpigeon_clock, songpigeon_open, songpigeon_packet};

// What a host is told of a writing: the number of the refusal, or 0 and the length. Laid out for C, so a number and no Result.
#[repr(C)]
#[derive(Clone, Copy)]
pub struct WriteReply {
    pub refusal: u8,
    pub length: usize,
}

// What a host is told of a place among descriptors: the number of the refusal, or 0; the kind of what stands there
// (0 nothing more, 1 a descriptor of fixed size, 2 another one), its tag, the place and length of the body of
// another one, and the next place. Laid out for C, which reads refusal, kind and tag as numbers.
#[repr(C)]
#[derive(Clone, Copy)]
pub struct Found {
    pub refusal: u8,
    pub kind: u8,
    pub tag: u8,
    pub at: usize,
    pub length: usize,
    pub next: usize,
}

// The version of this library, as the header has it.
pub fn songpigeon_version() -> u32
    ensures { result ≡ version }
{
    20000
}
