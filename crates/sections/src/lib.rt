// Sections: built from payloads in rooms of lent memory, and judged when they are finished (document 01,
// "Building sections").

#![tactic(auto)]

ghost use Rattle.std.specs.Prelude.{◌≡◌, true, ◌+◌, ◌<◌, ◌≤◌, length, take};
ghost use Rattle.std.proofs.lemmas.List.Edits.{sets};
ghost use Rattle.lists.specs.Places.{part};
ghost use Rattle.sections.specs.Rooms.{memory_size, room_count, room_base, greatest_length, half_built};
ghost use Rattle.sections.specs.Section.{bad_numbers, section_length, extension_of, stage_of, is_more};
ghost use Rattle.sections.specs.Outcomes.{right_id, crc_wrong, is_good, whole_outcome};
ghost use Rattle.sections.specs.inner.Steps.{laid_of, laid_in, step_outcome};

use events::{BAD, CRC_ERROR, NO_CAUSE, PAT_ERROR, PMT_ERROR, WRONG_TABLE};
use watches::FIXED;

// How far the bytes of a section are: more are to come, section_length is out of bounds, or it is whole.
#[derive(Clone, Copy, PartialEq, Eq, Debug)]
pub enum Stage {
    More,
    Bad,
    Whole,
}

// What a section step says: unfinished; good, with its table_id_extension; a fault with its cause and its
// id; or a finished section that says nothing.
#[derive(Clone, Copy, PartialEq, Eq, Debug)]
pub enum Outcome {
    Unfinished,
    Good { extension: u16 },
    Fault { fault: u16, cause: u8, id: u16 },
    Silent,
}

// What laying bytes did: how many were taken, the section's length with them, and how far it is.
#[derive(Clone, Copy, PartialEq, Eq, Debug)]
pub struct Laid {
    pub taken: usize,
    pub length: usize,
    pub stage: Stage,
}

// The bytes of section memory.
pub const MEMORY: usize = 24576;

// How many rooms it has: one for each fixed table, one for each place of the list. A room is a number, since its place in section
// memory and in the list is reckoned from it.
pub const ROOMS: usize = 21;

pub const PAT_ROOM: usize = 0;

const EIT_ROOM: usize = 3;

const TDT_ROOM: usize = 4;

// Where a room begins.
pub fn room_base(room: usize) -> usize
    requires { room < room_count }
    ensures { result ≡ room_base room }
{
    if room > EIT_ROOM {
        3072 + 1024 * room
    } else {
        1024 * room
    }
}

// The greatest section_length in a room.
pub fn greatest_length(room: usize) -> usize
    ensures { result ≡ greatest_length room }
{
    if room == EIT_ROOM { 4093 } else { 1021 }
}

// Whether a section_length is out of bounds.
fn length_bad(top: usize, id: u8, second: u8, n: usize) -> bool
    ensures { result ≡ bad_numbers top id second n }
{
    n > top || (second >= 128 && n < 9) || (id == 0x73 && n < 4)
}

// section_length in the bytes s. There may be too few, and `byte_at` reads 0 past them, as the definition does: from_be_bytes
// over a pattern is no plainer.
fn section_length(s: &[u8]) -> usize
    ensures { (result ≡ section_length s.now) × (result < 4096) }
{
    octets::byte_at(s, 1) % 16 * 256 + octets::byte_at(s, 2)
}

// How far the section of the bytes s is.
#[tactic(auto, unfolding(crate::specs::Section::stage_of))]
pub fn stage_of(s: &[u8], top: usize) -> Stage
    ensures { result ≡ stage_of top s.now }
{
    let [id, second, _, ..] = s else {
        return Stage::More;
    };
    let n = section_length(s);
    if length_bad(top, *id, *second, n) {
        Stage::Bad
    } else if s.len() < n + 3 {
        Stage::More
    } else {
        Stage::Whole
    }
}

// Whether a section is still to be built on: a name for the comparison, by which the clauses of callers ask.
pub fn is_more(g: Stage) -> bool
    ensures { result ≡ is_more g }
{
    g == Stage::More
}

// The bytes s, laid behind the n of the section at base, whose length is known, up to its end.
#[inline(always)]
fn lay_known(mem: &mut [u8; MEMORY], base: usize, top: usize, n: usize, s: &[u8]) -> Laid
    requires mem_len { (base + top + 3 ≤ memory_size) × (3 ≤ n) × (n < top + 3) }
    requires n_value { is_more (stage_of top (part mem.old base n)) ≡ true }
    ensures { (result ≡ laid_of top (part mem.old base n) n s.now)
        × (mem.new ≡ sets mem.old (base + n) (take result.taken s.now)) × (result.taken ≤ length s.now) }
{
    let want = section_length(&mem[base..base + n]) + 3;
    let taken = s.len().min(want - n);
    octets::copy(mem, base + n, &s[..taken]);
    let length = n + taken;
    Laid {
        taken,
        length,
        stage: if length < want {
            Stage::More
        } else {
            Stage::Whole
        },
    }
}

// The bytes s, laid behind the half-built section at base, up to its end.
#[inline(always)]
fn lay_at(mem: &mut [u8; MEMORY], base: usize, top: usize, half: usize, s: &[u8]) -> Laid
    requires mem_len { (base + top + 3 ≤ memory_size) × (half < top + 3) }
    requires half_value { is_more (stage_of top (part mem.old base half)) ≡ true }
    ensures { (result ≡ laid_of top (part mem.old base half) half s.now)
        × (mem.new ≡ sets mem.old (base + half) (take result.taken s.now)) × (result.taken ≤ length s.now) }
{
    let head = 3usize.saturating_sub(half);
    if s.len() < head {
        octets::copy(mem, base + half, s);
        return Laid {
            taken: s.len(),
            length: half + s.len(),
            stage: Stage::More,
        };
    }
    octets::copy(mem, base + half, &s[..head]);
    let n = half + head;
    let stage = stage_of(&mem[base..base + n], top);
    if !is_more(stage) {
        return Laid {
            taken: head,
            length: n,
            stage,
        };
    }
    let l = lay_known(mem, base, top, n, &s[head..]);
    Laid {
        taken: head + l.taken,
        ..l
    }
}

// The bytes s, laid behind the half-built section of a room, up to its end.
#[inline(always)]
pub fn lay(mem: &mut [u8; MEMORY], room: usize, half: usize, s: &[u8]) -> Laid
    requires mem_len { room < room_count }
    requires half_value { is_more (stage_of (greatest_length room) (half_built mem.old room half)) ≡ true }
    ensures { (result ≡ laid_of (greatest_length room) (half_built mem.old room half) half s.now)
        × (mem.new ≡ laid_in room mem.old half (take result.taken s.now)) × (result.taken ≤ length s.now) }
{
    lay_at(mem, room_base(room), greatest_length(room), half, s)
}

// The table_id of a room.
fn right_id(room: usize) -> usize
    ensures { result ≡ right_id room }
{
    usize::from(watches::table_of(room).id)
}

// Whether the CRC_32 of a finished section is judged, and wrong.
#[tactic(auto, unfolding(crate::specs::Outcomes::crc_wrong))]
fn crc_wrong(s: &[u8]) -> bool
    ensures { result ≡ crc_wrong s.now }
{
    let id = octets::byte_at(s, 0);
    let second = octets::byte_at(s, 1);
    (second >= 128 || id == 0x73) && crc::crc(s) != 0
}

// Whether a section whose CRC_32 is right is good.
fn is_good(s: &[u8], room: usize) -> bool
    ensures { result ≡ is_good room s.now }
{
    let second = octets::byte_at(s, 1);
    if octets::byte_at(s, 0) != right_id(room) {
        false
    } else if room == TDT_ROOM {
        second < 128 && section_length(s) == 5
    } else {
        second >= 128 && octets::byte_at(s, 5) % 2 == 1
    }
}

// table_id_extension in the bytes s. There may be too few, and `byte_at` reads 0 past them: from_be_bytes is no plainer.
fn extension_of(s: &[u8]) -> u16
    ensures { result ≡ extension_of s.now }
{
    (octets::byte_at(s, 3) * 256 + octets::byte_at(s, 4)) as u16
}

// What a whole section says: the first that holds.
#[tactic(auto, unfolding(crate::specs::Outcomes::whole_outcome))]
fn judge(s: &[u8], room: usize, pid: u16) -> Outcome
    ensures { result ≡ whole_outcome room pid s.now }
{
    let fault = |fault: u16, cause: u8| Outcome::Fault {
        fault,
        cause,
        id: pid,
    };
    let wrong = octets::byte_at(s, 0) != right_id(room);
    if crc_wrong(s) {
        fault(CRC_ERROR, NO_CAUSE)
    } else if room == PAT_ROOM && wrong {
        fault(PAT_ERROR, WRONG_TABLE)
    } else if room >= FIXED && wrong {
        fault(PMT_ERROR, WRONG_TABLE)
    } else if is_good(s, room) {
        Outcome::Good {
            extension: extension_of(s),
        }
    } else {
        Outcome::Silent
    }
}

// What a section step says: nothing yet, or what the section at its end says.
pub fn outcome_of(s: &[u8], stage: Stage, room: usize, pid: u16) -> Outcome
    ensures { result ≡ step_outcome room pid stage s.now }
{
    match stage {
        Stage::More => Outcome::Unfinished,
        Stage::Bad => Outcome::Fault {
            fault: CRC_ERROR,
            cause: BAD,
            id: pid,
        },
        Stage::Whole => judge(s, room, pid),
    }
}
