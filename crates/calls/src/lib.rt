// The state and the answer of the calls (document 01, "The calls and their numbers"), and in specs/ what
// every call does. No functions: the crate `engine` has them.

#![tactic(auto)]

use programmes::MOST_LISTED;
use sections::ROOMS;
use watches::{Entry, FIXED};

// The bytes of the counter table, one for each PID, and the greatest PID that may be listed.
pub const TABLE_SIZE: usize = 8192;

pub const GREATEST_PID: u16 = 0x1FFE;

// All of the state but the latest accepted time and the half-built bytes, which are lent. Sync and its run are two fields, and the
// list an array with its length, as the two arrays of a host have them (crate `arrays`).
#[derive(Clone, Copy)]
pub struct Core {
    // sync is lost; the run of wrong bytes in sync, of right ones while lost
    pub lost: bool,
    pub run: u8,
    // the starts of the fixed tables' present gaps
    pub since: [u64; FIXED],
    // the listed programmes: the first `count` entries
    pub count: usize,
    pub entries: [Entry; MOST_LISTED],
    // the half-built lengths of the rooms of section memory
    pub half: [u16; ROOMS],
}

#[derive(Clone, Copy)]
pub struct State {
    // the latest accepted time
    pub latest: u64,
    pub core: Core,
}

// What a call answers: the refusal number (0: accepted), the number of events, and the state. No Result: a refusal answers all three
// too (`open_answer`, `refused_with`), and the number is what hosts and lines of text tell.
#[derive(Clone, Copy)]
pub struct Answer {
    pub refusal: u32,
    pub n: usize,
    pub state: State,
}
