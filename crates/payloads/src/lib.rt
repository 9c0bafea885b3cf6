// A payload handed to section building (document 01, "Building sections" and "The programme list"). Each
// section acts as soon as it is finished, since the next one is laid over it: `arrivals` has what it does.

#![tactic(auto)]

mod arrivals;

ghost use Rattle.std.specs.Prelude.{◌≡◌, true, ◌+◌, ◌≤◌, ◌<◌, length, unwrap_or};
ghost use Rattle.events.specs.Capacity.{least_capacity};
ghost use Rattle.sections.specs.Rooms.{greatest_length, half_built};
ghost use Rattle.sections.specs.Section.{stage_of, is_more};
ghost use Rattle.sections.specs.Building.{going_on, following, fed, begun_job};
ghost use Rattle.programmes.specs.Listing.{most_listed};
ghost use Rattle.calls.specs.Steps.{arrival, sections_taken};
ghost use Rattle.arrays.specs.Lent.{count_in, core_in};
ghost use Rattle.arrays.specs.inner.Kept.{Moved};
ghost use Rattle.payloads.specs.inner.Taking.{held, Takable};
ghost use Rattle.payloads.specs.inner.Parts.{came_to, is_bad, left, finished, Shown, went, Fit, Gone};

use arrays::{TIMES, WORDS};
use arrivals::Arrival;
use sections::{MEMORY, Stage};

// Where the half-built section went on: the next place for an event, and how long the section is that is still
// half-built, or None where the rest of the payload is ignored.
#[derive(Clone, Copy)]
struct Resumed {
    n: usize,
    half: Option<usize>,
}

// Where sections were built: the next place for an event, and the length of the one that is still half-built.
#[derive(Clone, Copy)]
struct Built {
    n: usize,
    half: usize,
}

const STUFFING: u8 = 0xFF;

// Whether section_length is out of bounds: a name for the comparison, by which the clauses ask.
fn is_bad(g: Stage) -> bool
    ensures { result ≡ is_bad g }
{
    g == Stage::Bad
}

// New sections, back to back in the bytes s, until stuffing or the end. No `for`: each section says how many bytes it
// took.
fn follow(
    times: &mut [u64; TIMES],
    words: &mut [u16; WORDS],
    memory: &mut [u8; MEMORY],
    a: Arrival,
    s: &[u8],
    numbers: &mut [u64],
    n0: usize,
) -> Built
    requires fit { Fit (core_in times.old words.old) memory.old numbers.old }
    requires few { (length s.now ≤ 183) × (n0 + 61 ≤ least_capacity) }
    ensures shown { Shown (came_to a.time a.room a.pid (fed following a.room (begun_job memory.old 0) s.now) (held (core_in times.old words.old) memory.old))
        n0 numbers.old numbers.new memory.new (finished a.room result.half (core_in times.new words.new) result.n) }
    ensures moved { Moved times.old words.old times.new words.new × (result.n ≤ n0 + 61) × (result.half < 65536) }
{
    let mut n = n0;
    let mut at: usize = 0;
    while at < s.len() {
        if s[at] == STUFFING {
            return Built { n, half: 0 };
        }
        let l = sections::lay(memory, a.room, 0, &s[at..]);
        if sections::is_more(l.stage) {
            return Built { n, half: l.length };
        }
        n = arrivals::act(times, words, memory, a, l.stage, l.length, numbers, n);
        if is_bad(l.stage) {
            return Built { n, half: 0 };
        }
        at += l.taken;
    }
    Built { n, half: 0 }
}

// A half-built section goes on with the bytes s; those after its end are ignored.
fn resume(
    times: &mut [u64; TIMES],
    words: &mut [u16; WORDS],
    memory: &mut [u8; MEMORY],
    a: Arrival,
    half: usize,
    s: &[u8],
    numbers: &mut [u64],
    n: usize,
) -> Resumed
    requires fit { Fit (core_in times.old words.old) memory.old numbers.old }
    requires few { (length s.now ≤ 184) × (n < least_capacity) }
    requires more { is_more (stage_of (greatest_length a.room) (half_built memory.old a.room half)) ≡ true }
    ensures gone { Gone a.time a.room a.pid (fed going_on a.room (begun_job memory.old half) s.now) (core_in times.old words.old)
        n numbers.old numbers.new memory.new (went (core_in times.new words.new) result) }
    ensures moved { Moved times.old words.old times.new words.new × (count_in words.new ≤ most_listed) × (result.n ≤ n + 1) × (unwrap_or result.half 0 ≤ 4096) }
{
    if half == 0 {
        return Resumed { n, half: Some(0) };
    }
    let l = sections::lay(memory, a.room, half, s);
    if sections::is_more(l.stage) {
        return Resumed {
            n,
            half: Some(l.length),
        };
    }
    let next = arrivals::act(times, words, memory, a, l.stage, l.length, numbers, n);
    if is_bad(l.stage) {
        return Resumed {
            n: next,
            half: None,
        };
    }
    Resumed {
        n: next,
        half: Some(0),
    }
}

// A payload's bytes go to the sections of its PID; their events are laid from the place n on.
fn build(
    times: &mut [u64; TIMES],
    words: &mut [u16; WORDS],
    memory: &mut [u8; MEMORY],
    a: Arrival,
    start: bool,
    payload: &[u8],
    numbers: &mut [u64],
    n: usize,
) -> Built
    requires { Takable (core_in times.old words.old) memory.old a.room payload.now n numbers.old }
    ensures shown { Shown (sections_taken (arrival a.time a.room a.pid) start payload.now (held (core_in times.old words.old) memory.old))
        n numbers.old numbers.new memory.new (finished a.room result.half (core_in times.new words.new) result.n) }
    ensures moved { Moved times.old words.old times.new words.new × (result.n ≤ n + 62) × (result.half < 65536) }
{
    let half = arrays::half_in(words, a.room) as usize;
    if !start {
        let g = resume(times, words, memory, a, half, payload, numbers, n);
        return Built {
            n: g.n,
            half: g.half.unwrap_or(0),
        };
    }
    let e = 1 + octets::byte_at(payload, 0);
    if payload.len() <= e {
        return Built { n, half: 0 };
    }
    let g = resume(times, words, memory, a, half, &payload[1..e], numbers, n);
    if g.half.is_none() {
        return Built { n: g.n, half: 0 };
    }
    follow(times, words, memory, a, &payload[e..], numbers, g.n)
}

// A payload of a PID is taken into the room of its sections; their events are laid from the place n on.
pub fn take_payload(
    times: &mut [u64; TIMES],
    words: &mut [u16; WORDS],
    memory: &mut [u8; MEMORY],
    room: usize,
    pid: u16,
    start: bool,
    payload: &[u8],
    time: u64,
    numbers: &mut [u64],
    n: usize,
) -> usize
    requires { Takable (core_in times.old words.old) memory.old room payload.now n numbers.old }
    ensures shown { Shown (sections_taken (arrival time room pid) start payload.now (held (core_in times.old words.old) memory.old))
        n numbers.old numbers.new memory.new (left (core_in times.new words.new) result) }
    ensures moved { Moved times.old words.old times.new words.new × (result ≤ n + 62) }
{
    let a = Arrival { time, room, pid };
    let b = build(times, words, memory, a, start, payload, numbers, n);
    arrays::set_half(words, room, b.half as u16);
    b.n
}
