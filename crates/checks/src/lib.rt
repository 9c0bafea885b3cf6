// The refusals (document 01, "The calls and their numbers"): each call's ladder, the lowest number first, and
// the check of the state behind number 5, in the lent arrays.

#![tactic(auto)]

ghost use Rattle.std.specs.Prelude.{◌≡◌, true, cond, ◌&&◌, List, ℕ, ◌-◌, ◌<◌, ◌≤◌, leb, length, take, drop};
ghost use Rattle.watches.specs.Tables.{fixed_count};
ghost use Rattle.sections.specs.Rooms.{room_count, greatest_length, half_built};
ghost use Rattle.sections.specs.Section.{stage_of, is_more};
ghost use Rattle.programmes.specs.inner.Moving.{none_half};
ghost use Rattle.programmes.specs.Listing.{most_listed};
ghost use Rattle.calls.specs.Sound.{times_sound, number_among, entry_sound, entries_sound, rooms_from, rooms_sound, state_sound};
ghost use Rattle.calls.specs.Calls.{open_refusal, clock_refusal};
ghost use Rattle.arrays.specs.Lent.{entries_in, state_in, core_time_count, core_word_count};
ghost use Rattle.checks.specs.Refusals.{refusal_number, number_in};
ghost use Rattle.checks.specs.inner.Ladders.{sizes_refusal, state_refusal};

use arrays::LATEST;
use calls::{GREATEST_PID, TABLE_SIZE};
use events::LEAST_CAPACITY;
use header::PACKET_SIZE;
use programmes::{LOWEST_PID, MOST_LISTED};
use sections::{MEMORY, ROOMS};
use watches::{Entry, FIXED, LATEST_TIME};

// Why a call is refused: the numbers 1 to 6.
#[derive(Clone, Copy, PartialEq, Eq, Debug)]
pub enum Refusal {
    PacketSize,
    TableSize,
    FewRecords,
    TimeTooLate,
    UnknownState,
    TimeBackwards,
}

impl From<Refusal> for u32 {
    ghost from_gives = { λ r n. n ≡ refusal_number r };

    fn from(refusal: Refusal) -> u32 {
        match refusal {
            Refusal::PacketSize => 1,
            Refusal::TableSize => 2,
            Refusal::FewRecords => 3,
            Refusal::TimeTooLate => 4,
            Refusal::UnknownState => 5,
            Refusal::TimeBackwards => 6,
        }
    }
}

// Whether none of these gap starts is above 2^62.
fn times_sound(since: &[u64]) -> bool
    ensures { result ≡ times_sound since.now }
{
    since.iter().all(|&t| t <= LATEST_TIME)
}

// Whether a listed entry has a number, a PID within the bounds, and a gap start not above 2^62. All four are looked at, with
// one branch behind them.
fn entry_sound(e: Entry) -> bool
    ensures { result ≡ entry_sound e }
{
    (e.number != 0) & (LOWEST_PID <= e.pid) & (e.pid <= GREATEST_PID) & (e.since <= LATEST_TIME)
}

// Whether a number is that of a listed entry from the place `start` on.
// Times and words go side by side: tried as one struct, whose clause has to say `.entry` of each, and no plainer for what reads only.
fn number_among(number: u16, times: &[u64], words: &[u16], count: usize, start: usize) -> bool
    requires { (core_time_count ≤ length times.now) × (core_word_count ≤ length words.now) × (count ≤ most_listed) × (start ≤ count) }
    ensures { result ≡ number_among number (drop start (take count (entries_in times.now words.now))) }
{
    (start..count).any(|i| arrays::entry_at(times, words, i).number == number)
}

// Whether each listed entry is sound and its number not listed again. Numbers are told apart by their remainder
// of 64: only where two have the same is the list searched.
fn entries_sound(times: &[u64], words: &[u16], count: usize) -> bool
    requires { (core_time_count ≤ length times.now) × (core_word_count ≤ length words.now) × (count ≤ most_listed) }
    ensures { result ≡ entries_sound (take count (entries_in times.now words.now)) }
{
    let mut marks = [false; 64];
    for i in (0..count).rev() {
        let e = arrays::entry_at(times, words, i);
        if !entry_sound(e) {
            return false;
        }
        let mark = usize::from(e.number % 64);
        if marks[mark] && number_among(e.number, times, words, count, i + 1) {
            return false;
        }
        marks[mark] = true;
    }
    true
}

// Whether a sync run is one that these calls leave.
fn run_sound(lost: bool, run: u8) -> bool
    ensures { result ≡ leb run (cond lost 4 1) }
{
    run <= if lost { 4 } else { 1 }
}

// Whether the half-built bytes of a room are still to be built on. A given length may reach past the end
// of section memory: what is there is judged.
fn room_sound(memory: &[u8; MEMORY], room: usize, half: u16) -> bool
    requires { room < room_count }
    ensures { result ≡ is_more (stage_of (greatest_length room) (half_built memory.now room half)) }
{
    if half == 0 {
        return true;
    }
    let base = sections::room_base(room);
    let n = usize::from(half).min(memory.len() - base);
    let top = sections::greatest_length(room);
    sections::is_more(sections::stage_of(&memory[base..base + n], top))
}

// Whether nothing is half-built. All lengths are looked at: a loop without a way out is done many at a time. They are a part of
// the lent words, so a slice, whose length is a clause.
pub fn none_half(half: &[u16]) -> bool
    requires { length half.now ≡ room_count }
    ensures { result ≡ none_half half.now }
{
    half.iter().fold(true, |none, &n| none & (n == 0))
}

// A room from which on nothing is half-built.
fn rooms_used(half: &[u16]) -> usize
    requires { length half.now ≡ room_count }
    ensures { (result ≤ room_count) × ((m : List ℕ) → rooms_from half.now m result (room_count - result) ≡ true) }
{
    if programmes::none_listed(half) {
        FIXED
    } else {
        ROOMS
    }
}

// Whether the half-built bytes of every room are still to be built on: mostly there are none.
pub fn rooms_sound(half: &[u16], memory: &[u8; MEMORY]) -> bool
    requires { length half.now ≡ room_count }
    ensures { result ≡ rooms_sound half.now memory.now }
{
    none_half(half)
        || half[..rooms_used(half)]
            .iter()
            .enumerate()
            .all(|(room, &n)| room_sound(memory, room, n))
}

// The rest of the state behind its list: a run of sync bytes that these calls leave, half-built bytes still to be built on.
fn rest_sound(lost: bool, run: u8, half: &[u16], memory: &[u8; MEMORY]) -> bool
    requires { length half.now ≡ room_count }
    ensures { result ≡ (leb run (cond lost 4 1) && rooms_sound half.now memory.now) }
{
    run_sound(lost, run) && rooms_sound(half, memory)
}

// Whether the state is no ground for refusal 5.
#[tactic(auto, unfolding(calls::specs::Sound::state_sound, arrays::specs::Lent::state_in))]
fn state_sound(times: &[u64], words: &[u16], memory: &[u8; MEMORY]) -> bool
    requires { (core_time_count ≤ length times.now) × (core_word_count ≤ length words.now) }
    ensures { result ≡ state_sound (state_in times.now words.now) memory.now }
{
    let count = arrays::count_in(words);
    times[LATEST] <= LATEST_TIME
        && times_sound(arrays::gaps_of(times))
        && count <= MOST_LISTED
        && entries_sound(times, words, count)
        && rest_sound(
            arrays::sync_lost(words),
            arrays::sync_run(words),
            arrays::halves_of(words),
            memory,
        )
}

// What is so, or the refusal where it is not.
fn ensure(holds: bool, refusal: Refusal) -> Result<(), Refusal>
    ensures { number_in result ≡ cond holds 0 (refusal_number refusal) }
{
    if holds { Ok(()) } else { Err(refusal) }
}

// Whether an opening is accepted.
#[tactic(auto, unfolding(calls::specs::Calls::open_refusal))]
pub fn check_open(time: u64, counters: &[u8]) -> Result<(), Refusal>
    ensures { number_in result ≡ open_refusal time counters.now }
{
    ensure(counters.len() == TABLE_SIZE, Refusal::TableSize)?;
    ensure(time <= LATEST_TIME, Refusal::TimeTooLate)
}

// Refusals 1 to 4 of a packet call, for an event list of `capacity` records.
#[tactic(auto, unfolding(crate::specs::inner::Ladders::sizes_refusal))]
pub fn check_sizes(
    time: u64,
    packet: &[u8],
    counters: &[u8],
    capacity: usize,
) -> Result<(), Refusal>
    ensures { number_in result ≡ sizes_refusal time packet.now counters.now capacity }
{
    ensure(packet.len() == PACKET_SIZE, Refusal::PacketSize)?;
    ensure(counters.len() == TABLE_SIZE, Refusal::TableSize)?;
    ensure(LEAST_CAPACITY <= capacity, Refusal::FewRecords)?;
    ensure(time <= LATEST_TIME, Refusal::TimeTooLate)
}

// Refusals 5 and 6 of a packet call, whose PID has a table byte.
#[tactic(auto, unfolding(crate::specs::inner::Ladders::state_refusal, arrays::specs::Lent::state_in))]
pub fn check_state(
    times: &[u64],
    words: &[u16],
    time: u64,
    memory: &[u8; MEMORY],
    byte: u8,
) -> Result<(), Refusal>
    requires { (core_time_count ≤ length times.now) × (core_word_count ≤ length words.now) }
    ensures { number_in result ≡ state_refusal (state_in times.now words.now) time memory.now byte }
{
    ensure(state_sound(times, words, memory), Refusal::UnknownState)?;
    ensure(continuity::known_byte(byte), Refusal::UnknownState)?;
    ensure(times[LATEST] <= time, Refusal::TimeBackwards)
}

// Whether a clock call is accepted.
#[tactic(auto, unfolding(calls::specs::Calls::clock_refusal, arrays::specs::Lent::state_in))]
pub fn check_clock(
    times: &[u64],
    words: &[u16],
    time: u64,
    memory: &[u8; MEMORY],
    capacity: usize,
) -> Result<(), Refusal>
    requires { (core_time_count ≤ length times.now) × (core_word_count ≤ length words.now) }
    ensures { number_in result ≡ clock_refusal (state_in times.now words.now) time memory.now capacity }
{
    ensure(LEAST_CAPACITY <= capacity, Refusal::FewRecords)?;
    ensure(time <= LATEST_TIME, Refusal::TimeTooLate)?;
    ensure(state_sound(times, words, memory), Refusal::UnknownState)?;
    ensure(times[LATEST] <= time, Refusal::TimeBackwards)
}
