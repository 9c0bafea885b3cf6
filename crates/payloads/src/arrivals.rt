// What a section does at its end: its event is laid, and a good one ends a gap; that of the PAT has the list.
ghost use Rattle.std.specs.Prelude.{◌≡◌, cond, ◌&&◌, List, [], ◌∷◌, ℕ, ◌+◌, ◌≤◌, ◌<◌, eqb, length};
ghost use Rattle.events.specs.Capacity.{least_capacity, number_capacity};
ghost use Rattle.events.specs.Faults as fault;
ghost use Rattle.events.specs.Events.{event_at, events_laid};
ghost use Rattle.sections.specs.Rooms.{memory_size, room_count, room_base, pat_room, half_built};
ghost use Rattle.sections.specs.inner.Steps.{step_outcome};
ghost use Rattle.programmes.specs.Listing.{most_listed};
ghost use Rattle.programmes.specs.Places.{moved_halves, moved_bytes};
ghost use Rattle.calls.specs.Cores.{with_half};
ghost use Rattle.calls.specs.Steps.{arrival, new_list, relisted, arrived_in};
ghost use Rattle.arrays.specs.Lent.{word_count, count_in, halves_in, core_in};
ghost use Rattle.arrays.specs.inner.Kept.{SyncKept, Moved};
ghost use Rattle.payloads.specs.inner.Taking.{held};
ghost use Rattle.payloads.specs.inner.Parts.{end_acts, left, Shown, Small, Fit};

use arrays::{TIMES, WORDS};
use events::{BAD, PAT_ERROR};
use programmes::Listed;
use sections::{MEMORY, Outcome, PAT_ROOM, Stage};
use watches::{Entry, FIXED};

// Where and when sections arrive: the room that they are built in, their PID and the time, which stay together from a
// payload to the events of its sections. The lent arrays stay apart: a struct of `&mut` fields gets no proof without a
// clause on each loan.
#[derive(Clone, Copy)]
pub(crate) struct Arrival {
    pub(crate) time: u64,
    pub(crate) room: usize,
    pub(crate) pid: u16,
    ghost inside: { room < room_count },
}

// What a section step of a room says, by the bytes there.
fn outcome_in(memory: &[u8; MEMORY], a: Arrival, size: usize, stage: Stage) -> Outcome
    requires { room_base a.room + size ≤ memory_size }
    ensures { result ≡ step_outcome a.room a.pid stage (half_built memory.now a.room size) }
{
    let base = sections::room_base(a.room);
    sections::outcome_of(&memory[base..base + size], stage, a.room, a.pid)
}

// Half-built sections stay with their PIDs as a list is replaced; mostly there are none.
fn keep_sections(words: &mut [u16; WORDS], memory: &mut [u8; MEMORY], old: &[Entry], new: &[Entry])
    requires few { (length old.now ≤ most_listed) × (length new.now ≤ most_listed) }
    requires small { Small (halves_in words.old) }
    ensures { ((times : List ℕ) → core_in times words.new ≡ with_half (moved_halves old.now new.now (halves_in words.old)) (core_in times words.old))
        × (memory.new ≡ moved_bytes old.now new.now (halves_in words.old) memory.old)
        × SyncKept words.old words.new }
{
    let half = arrays::halves_in(words);
    if programmes::none_listed(&half) {
        return;
    }
    let moved = programmes::move_sections(memory, old, new, half);
    arrays::lay_halves(words, moved);
}

// A good PAT section of `size` bytes: the list is the one in it. Whether it is bad.
fn relist(
    times: &mut [u64; TIMES],
    words: &mut [u16; WORDS],
    memory: &mut [u8; MEMORY],
    size: usize,
    time: u64,
) -> bool
    requires few { (count_in words.old ≤ most_listed) × (size ≤ memory_size) }
    requires small { Small (halves_in words.old) }
    ensures words_after { (core_in times.new words.new ≡ (relisted time (half_built memory.old pat_room size) (held (core_in times.old words.old) memory.old)).core)
        × (memory.new ≡ (relisted time (half_built memory.old pat_room size) (held (core_in times.old words.old) memory.old)).memory)
        × (result ≡ (new_list time (half_built memory.old pat_room size) (core_in times.old words.old)).bad) }
    ensures moved { Moved times.old words.old times.new words.new × (count_in words.new ≤ most_listed) }
{
    let entries = arrays::entries_in(times, words);
    let old = &entries[..arrays::count_in(words)];
    let Listed {
        count,
        bad,
        entries: new,
    } = programmes::read_list(time, old, &memory[..size]);
    keep_sections(words, memory, old, &new[..count]);
    arrays::end_gap(times, PAT_ROOM, time);
    arrays::lay_list(times, words, new, count);
    bad
}

// A good section, with its table_id_extension, ends the gap of its table; that of the PAT has the list. Whether that
// is bad.
fn arrive(
    times: &mut [u64; TIMES],
    words: &mut [u16; WORDS],
    memory: &mut [u8; MEMORY],
    a: Arrival,
    extension: u16,
    size: usize,
) -> bool
    requires few { (count_in words.old ≤ most_listed) × (size ≤ memory_size) }
    requires small { Small (halves_in words.old) }
    ensures words_after { (core_in times.new words.new ≡ (arrived_in (arrival a.time a.room a.pid) extension (half_built memory.old a.room size) (held (core_in times.old words.old) memory.old)).core)
        × (memory.new ≡ (arrived_in (arrival a.time a.room a.pid) extension (half_built memory.old a.room size) (held (core_in times.old words.old) memory.old)).memory)
        × (result ≡ (eqb a.room pat_room && (new_list a.time (half_built memory.old a.room size) (core_in times.old words.old)).bad)) }
    ensures moved { Moved times.old words.old times.new words.new × (count_in words.new ≤ most_listed) }
{
    if a.room == PAT_ROOM {
        return relist(times, words, memory, size, a.time);
    }
    if a.room >= FIXED {
        arrays::end_pair(times, words, extension, a.pid, a.time);
    } else {
        arrays::end_gap(times, a.room, a.time);
    }
    false
}

// A good PAT with a bad list gives an event, laid at the place n; the next place.
fn put_list(numbers: &mut [u64], n: usize, a: Arrival, bad: bool) -> usize
    requires { (n < least_capacity) × (number_capacity ≤ length numbers.old) }
    ensures { (result ≡ n + length (cond bad (event_at a.time fault.pat_error fault.bad a.pid ∷ []) []))
        × (numbers.new ≡ events_laid numbers.old n (cond bad (event_at a.time fault.pat_error fault.bad a.pid ∷ []) [])) }
{
    if !bad {
        return n;
    }
    events::put(numbers, n, a.time, PAT_ERROR, BAD, a.pid)
}

// A section of `size` bytes at its end acts: its event is laid at the place n, and a good one ends a gap.
// Anything but a good one leaves before list or watch is touched.
pub(crate) fn act(
    times: &mut [u64; TIMES],
    words: &mut [u16; WORDS],
    memory: &mut [u8; MEMORY],
    a: Arrival,
    stage: Stage,
    size: usize,
    numbers: &mut [u64],
    n: usize,
) -> usize
    requires fit { Fit (core_in times.old words.old) memory.old numbers.old }
    requires few { (room_base a.room + size ≤ memory_size) × (n < least_capacity) }
    ensures shown { Shown (end_acts a.time a.room a.pid stage (half_built memory.old a.room size) (held (core_in times.old words.old) memory.old))
        n numbers.old numbers.new memory.new (left (core_in times.new words.new) result) }
    ensures moved { Moved times.old words.old times.new words.new × (count_in words.new ≤ most_listed) × (result ≤ n + 1) }
{
    match outcome_in(memory, a, size, stage) {
        Outcome::Unfinished | Outcome::Silent => n,
        Outcome::Fault { fault, cause, id } => events::put(numbers, n, a.time, fault, cause, id),
        Outcome::Good { extension } => {
            let bad = arrive(times, words, memory, a, extension, size);
            put_list(numbers, n, a, bad)
        }
    }
}
