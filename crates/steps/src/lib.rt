// One packet judged: steps 1 to 5 of document 01, "Judging one packet", in the lent arrays. Events have the call's time
// as stamp and the packet's 13 PID bits as id. Step 1 is in `sync`.

#![tactic(auto)]

mod sync;

ghost use Rattle.std.specs.Prelude.{◌≡◌, ◌&&◌, cond, ltb, List, [], ◌∷◌, ℕ, ◌+◌, ◌<◌, ◌≤◌, length, set};
ghost use Rattle.std.specs.Option.{ForSome};
ghost use Rattle.events.specs.Capacity.{least_capacity, number_capacity};
ghost use Rattle.events.specs.Events.{events_laid};
ghost use Rattle.events.specs.Faults.{continuity_error};
ghost use Rattle.watches.specs.Tables.{fixed_tables, fixed_count};
ghost use Rattle.header.specs.Header.{header_of};
ghost use Rattle.header.specs.inner.Reads.{ReadOff};
ghost use Rattle.sections.specs.Rooms.{room_count};
ghost use Rattle.programmes.specs.Listing.{most_listed};
ghost use Rattle.programmes.specs.Places.{is_listed};
ghost use Rattle.calls.specs.Cores.{fixed_room, list_room, room_for, with_half};
ghost use Rattle.calls.specs.Steps.{scrambling_events, step1, step2, step4};
ghost use Rattle.arrays.specs.Lent.{count_in, halves_in, core_in};
ghost use Rattle.arrays.specs.inner.Kept.{listed_in, within};
ghost use Rattle.arrays.specs.inner.Kept.{LatestKept, SyncKept, Moved, SyncTold};
ghost use Rattle.payloads.specs.inner.Taking.{held};
ghost use Rattle.steps.specs.inner.Judging.{Ready, Judgeable, Done, fault_events, coursed};

use arrays::{TIMES, WORDS};
use continuity::Counted;
use events::{CONTINUITY_ERROR, NO_CAUSE, PAT_ERROR, PMT_ERROR, SCRAMBLED, TRANSPORT_ERROR};
use header::{Header, SYNC_BYTE};
use programmes::NULL_PID;
use sections::MEMORY;
use std::ops::ControlFlow;
use watches::{FIXED, PAT_PID};

// A packet at a time, its header, and the table byte of its PID. What is lent to be written stays apart: tried, and the proof of a
// struct of `&mut`s did not close without a clause on each loan. That the byte is the table's is a clause: the table is lent apart.
#[derive(Clone, Copy)]
struct Seen<'a> {
    time: u64,
    packet: &'a [u8],
    header: Header,
    byte: u8,
}

// The place of a PID in the table of fixed watches, if it is there.
fn fixed_room(pid: u16) -> Option<usize>
    ensures { result ≡ within fixed_count (fixed_room pid fixed_tables) }
{
    (0..FIXED).find(|&k| watches::table_of(k).pid == pid)
}

// The room of a PID by its first place in the list; of any other no section is built.
fn list_room(words: &[u16; WORDS], pid: u16) -> Option<usize>
    requires { count_in words.now ≤ most_listed }
    ensures { (times : List ℕ) → result ≡ within room_count (list_room pid (listed_in times words.now)) }
{
    arrays::place_in(words, pid).map(|place| FIXED + place)
}

// Whether a PID is that of a listed programme.
fn is_listed(words: &[u16; WORDS], pid: u16) -> bool
    requires { count_in words.now ≤ most_listed }
    ensures { (times : List ℕ) → result ≡ is_listed pid (listed_in times words.now) }
{
    arrays::place_in(words, pid).is_some()
}

// The room where sections of a PID are built, if they are.
fn room_for(words: &[u16; WORDS], pid: u16) -> Option<usize>
    requires { count_in words.now ≤ most_listed }
    ensures { (times : List ℕ) → result ≡ within room_count (room_for (core_in times words.now) pid) }
{
    fixed_room(pid).or_else(|| list_room(words, pid))
}

// The half-built section of a room, if it is one, dropped, unless it is kept.
fn keep_room(words: &mut [u16; WORDS], room: Option<usize>, keep: bool)
    requires { ForSome room (λ r. r < room_count) }
    ensures { ((times : List ℕ) (r : ℕ) → room ≡ within room_count r → core_in times words.new ≡ cond keep (core_in times words.old) (with_half (set (halves_in words.old) r 0) (core_in times words.old)))
        × SyncKept words.old words.new }
{
    if keep {
        return;
    }
    if let Some(room) = room {
        arrays::set_half(words, room, 0);
    }
}

// Step 5 on a packet that is scrambled: its event, if it has one.
fn judge_scrambled(
    words: &[u16; WORDS],
    time: u64,
    pid: u16,
    numbers: &mut [u64],
    n: usize,
) -> usize
    requires { (count_in words.now ≤ most_listed) × (n < least_capacity) × (number_capacity ≤ length numbers.old) }
    ensures { ((times : List ℕ) → (result ≡ n + length (scrambling_events time (core_in times words.now) pid))
        × (numbers.new ≡ events_laid numbers.old n (scrambling_events time (core_in times words.now) pid)))
        × (result ≤ n + 1) }
{
    if pid == PAT_PID {
        return events::put(numbers, n, time, PAT_ERROR, SCRAMBLED, pid);
    }
    if is_listed(words, pid) {
        return events::put(numbers, n, time, PMT_ERROR, SCRAMBLED, pid);
    }
    n
}

// The event of step 4, if there is one.
fn tell_continuity(event: bool, time: u64, pid: u16, numbers: &mut [u64], n: usize) -> usize
    requires { (n < least_capacity) × (number_capacity ≤ length numbers.old) }
    ensures { (result ≡ n + length (fault_events time pid (cond event (continuity_error ∷ []) [])))
        × (numbers.new ≡ events_laid numbers.old n (fault_events time pid (cond event (continuity_error ∷ []) [])))
        × (result ≤ n + 1) }
{
    if event {
        return events::put(numbers, n, time, CONTINUITY_ERROR, NO_CAUSE, pid);
    }
    n
}

// What is left to be done behind step 4: what is half-built in the room of the PID is kept or dropped, and the part of the
// packet from its payload's place on is handed to section building, if it is. The counter table stays as step 4 left it,
// whatever it is.
fn take_course(
    times: &mut [u64; TIMES],
    words: &mut [u16; WORDS],
    seen: Seen,
    room: Option<usize>,
    j: Counted,
    memory: &mut [u8; MEMORY],
    numbers: &mut [u64],
    n: usize,
) -> usize
    requires ready { Ready (core_in times.old words.old) memory.old seen.packet.now numbers.old n 62 }
    requires h_value { (seen.header ≡ header_of seen.packet.now) × ForSome room (λ r. r < room_count) }
    ensures by_index { (cs : List ℕ) (r : ℕ) → room ≡ within room_count r
        → Done (coursed seen.entry.time seen.entry.packet.now r j.keep (j.take && ltb r room_count) cs (held (core_in times.old words.old) memory.old)) 62
        (core_in times.new words.new) cs memory.new numbers.old n numbers.new result }
    ensures moved { Moved times.old words.old times.new words.new }
{
    keep_room(words, room, j.keep);
    if !j.take {
        return n;
    }
    let Some(room) = room else {
        return n;
    };
    let h = seen.header;
    payloads::take_payload(
        times,
        words,
        memory,
        room,
        h.pid,
        h.start,
        &seen.packet[h.payload..],
        seen.time,
        numbers,
        n,
    )
}

// Steps 4 and 5, by the table byte of the packet's PID. `continuity::judge` is step 4; what it leaves is acted on here.
fn judge_counter(
    times: &mut [u64; TIMES],
    words: &mut [u16; WORDS],
    seen: Seen,
    counters: &mut [u8],
    memory: &mut [u8; MEMORY],
    numbers: &mut [u64],
    n: usize,
) -> usize
    requires ready { Ready (core_in times.old words.old) memory.old seen.packet.now numbers.old n 63 }
    requires read_off { ReadOff seen.packet.now counters.old seen.header seen.byte × (seen.header.pid < length counters.old) }
    ensures done { Done (step4 seen.entry.time seen.entry.packet.now counters.old (held (core_in times.old words.old) memory.old)) 63
        (core_in times.new words.new) counters.new memory.new numbers.old n numbers.new result }
    ensures moved { Moved times.old words.old times.new words.new }
{
    let h = seen.header;
    let pid = usize::from(h.pid);
    let j = continuity::judge(seen.byte, h);
    counters[pid] = j.byte;
    let room = room_for(words, h.pid);
    let next = tell_continuity(j.event, seen.time, h.pid, numbers, n);
    if h.scrambled {
        let last = judge_scrambled(words, seen.time, h.pid, numbers, next);
        keep_room(words, room, false);
        return last;
    }
    take_course(times, words, seen, room, j, memory, numbers, next)
}

// Steps 2 and 3, and what follows them.
fn judge_header(
    times: &mut [u64; TIMES],
    words: &mut [u16; WORDS],
    seen: Seen,
    counters: &mut [u8],
    memory: &mut [u8; MEMORY],
    numbers: &mut [u64],
    n: usize,
) -> usize
    requires ready { Ready (core_in times.old words.old) memory.old seen.packet.now numbers.old n 63 }
    requires read_off { ReadOff seen.packet.now counters.old seen.header seen.byte × (seen.header.pid < length counters.old) }
    ensures done { Done (step2 seen.entry.time seen.entry.packet.now counters.old (held (core_in times.old words.old) memory.old)) 63
        (core_in times.new words.new) counters.new memory.new numbers.old n numbers.new result }
    ensures moved { Moved times.old words.old times.new words.new }
{
    let h = seen.header;
    if h.error {
        return events::put(numbers, n, seen.time, TRANSPORT_ERROR, NO_CAUSE, h.pid);
    }
    if (h.pid == NULL_PID) | (h.control == 0) {
        return n;
    }
    judge_counter(times, words, seen, counters, memory, numbers, n)
}

// A packet at a time, its header and the table byte of its PID: steps 1 to 5. Its events are laid from the place n on.
pub fn judge_packet(
    times: &mut [u64; TIMES],
    words: &mut [u16; WORDS],
    time: u64,
    packet: &[u8],
    h: Header,
    byte: u8,
    counters: &mut [u8],
    memory: &mut [u8; MEMORY],
    numbers: &mut [u64],
    n: usize,
) -> usize
    requires judgeable { Judgeable (core_in times.old words.old) packet.now counters.old memory.old numbers.old n }
    requires read_off { ReadOff packet.now counters.old h byte × (h.pid < length counters.old) }
    ensures done { Done (step1 time packet.now counters.old (held (core_in times.old words.old) memory.old)) 65
        (core_in times.new words.new) counters.new memory.new numbers.old n numbers.new result }
    ensures latest_kept { LatestKept times.old times.new × SyncTold words.new }
{
    let right = packet[0] == SYNC_BYTE;
    match sync::judge_sync(words, right, time, h.pid, numbers, n) {
        ControlFlow::Continue(next) => {
            let seen = Seen {
                time,
                packet,
                header: h,
                byte,
            };
            judge_header(times, words, seen, counters, memory, numbers, next)
        }
        ControlFlow::Break(next) => next,
    }
}
