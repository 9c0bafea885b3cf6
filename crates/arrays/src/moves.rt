// What a call reads of the lent arrays, and what it moves in them, one thing at a time. What only reads takes slices: its clause
// asks for the core's numbers or more, and may not ask for exactly as many, as an array type would.
// That at most sixteen are listed and a run is at most 4 are clauses: a host lends any numbers, and refusal 5 judges them.
ghost use Rattle.std.specs.Prelude.{◌≡◌, ◌≤◌, ◌<◌, List, ℕ, length, set, replicate, eqb, position};
ghost use Rattle.watches.specs.Tables.{fixed_count};
ghost use Rattle.sections.specs.Rooms.{room_count};
ghost use Rattle.programmes.specs.Listing.{most_listed};
ghost use Rattle.programmes.specs.Places.{half_at};
ghost use Rattle.calls.specs.Cores.{with_half, with_sync, with_list};
ghost use Rattle.calls.specs.Steps.{touched, arrived_table, arrived_programme};
ghost use Rattle.arrays.specs.Lent.{sync_lost, sync_run, gaps_in, count_in, halves_in, core_in, times_of, words_of, core_time_count, core_word_count};
ghost use Rattle.arrays.specs.inner.Kept.{listed_in, place_among};
ghost use Rattle.arrays.specs.inner.Kept.{LatestKept, SyncKept, Moved, SyncTold};

use crate::{COUNT, GAPS, HALVES, LATEST, LOST, PIDS, RUN, SINCES, TIMES, WORDS};
use programmes::MOST_LISTED;
use sections::ROOMS;
use watches::Entry;

// Whether sync is lost.
pub fn sync_lost(words: &[u16]) -> bool
    requires { core_word_count ≤ length words.now }
    ensures { result ≡ sync_lost words.now }
{
    words[LOST] != 0
}

// The run of sync bytes.
pub fn sync_run(words: &[u16]) -> u8
    requires { core_word_count ≤ length words.now }
    ensures { result ≡ sync_run words.now }
{
    u8::try_from(words[RUN]).unwrap_or(255)
}

// How many programmes are listed.
pub fn count_in(words: &[u16]) -> usize
    requires { core_word_count ≤ length words.now }
    ensures { result ≡ count_in words.now }
{
    usize::from(words[COUNT])
}

// The gap starts of the fixed tables, where they stand.
pub fn gaps_of(times: &[u64]) -> &[u64]
    requires { core_time_count ≤ length times.now }
    ensures { result.now ≡ gaps_in times.now }
{
    &times[GAPS..SINCES]
}

// The half-built lengths, where they stand.
pub fn halves_of(words: &[u16]) -> &[u16]
    requires { core_word_count ≤ length words.now }
    ensures { result.now ≡ halves_in words.now }
{
    &words[HALVES..LOST]
}

// The half-built length of a room.
pub fn half_in(words: &[u16], room: usize) -> u16
    requires { (core_word_count ≤ length words.now) × (room < room_count) }
    ensures { result ≡ half_at (halves_in words.now) room }
{
    words[HALVES + room]
}

// The first place of a PID among some.
fn first_with(pids: &[u16], pid: u16) -> Option<usize>
    ensures { result ≡ position (λ p. eqb p pid) pids.now }
{
    pids.iter().position(|&p| p == pid)
}

// The first place of the list with a PID, if there is one.
pub fn place_in(words: &[u16], pid: u16) -> Option<usize>
    requires { (core_word_count ≤ length words.now) × (count_in words.now ≤ most_listed) }
    ensures { (times : List ℕ) → result ≡ place_among pid (listed_in times words.now) }
{
    first_with(&words[PIDS..PIDS + count_in(words)], pid)
}

// Sync as step 1 leaves it.
pub fn set_sync(words: &mut [u16; WORDS], lost: bool, run: u8)
    ensures { ((times : List ℕ) → core_in times words.new ≡ with_sync lost run (core_in times words.old))
        × SyncTold words.new }
{
    words[LOST] = u16::from(lost);
    words[RUN] = u16::from(run);
}

// The half-built length of a room, set anew.
pub fn set_half(words: &mut [u16; WORDS], room: usize, n: u16)
    requires { room < room_count }
    ensures { ((times : List ℕ) → core_in times words.new ≡ with_half (set (halves_in words.old) room n) (core_in times words.old))
        × SyncKept words.old words.new }
{
    words[HALVES + room] = n;
}

// All half-built sections dropped.
pub fn drop_all(words: &mut [u16; WORDS])
    ensures { ((times : List ℕ) → core_in times words.new ≡ with_half (replicate room_count 0) (core_in times words.old))
        × SyncKept words.old words.new }
{
    crate::lay_halves(words, [0; ROOMS]);
}

// A good section of a fixed table ends its gap.
pub fn end_gap(times: &mut [u64; TIMES], room: usize, time: u64)
    requires { room < fixed_count }
    ensures { ((words : List ℕ) → core_in times.new words ≡ arrived_table time room (core_in times.old words))
        × LatestKept times.old times.new }
{
    times[GAPS + room] = time;
}

// The gap start of an entry, a good section of a pair having arrived.
fn since_after(e: Entry, number: u16, pid: u16, time: u64) -> u64
    ensures { result ≡ (touched number pid time e).since }
{
    if (e.number == number) & (e.pid == pid) {
        return time;
    }
    e.since
}

// A good section of a pair of number and PID ends its gap.
pub fn end_pair(times: &mut [u64; TIMES], words: &[u16; WORDS], number: u16, pid: u16, time: u64)
    requires { count_in words.now ≤ most_listed }
    ensures { (core_in times.new words.now ≡ arrived_programme number pid time (core_in times.old words.now))
        × LatestKept times.old times.new }
{
    for i in 0..count_in(words) {
        let e = crate::entry_at(times, words, i);
        times[SINCES + i] = since_after(e, number, pid, time);
    }
}

// A list: sixteen entries, of which the first `count` are listed.
pub fn lay_list(
    times: &mut [u64; TIMES],
    words: &mut [u16; WORDS],
    entries: [Entry; MOST_LISTED],
    count: usize,
)
    requires { count ≤ most_listed }
    ensures { (core_in times.new words.new ≡ with_list count entries (core_in times.old words.old))
        × Moved times.old words.old times.new words.new }
{
    crate::lay_sinces(times, entries);
    crate::lay_pairs(words, entries);
    words[COUNT] = count as u16;
}

// The arrays at the end of a call that moves nothing else: its time is the latest, and a sync that is lost is told by a 1.
pub fn settle(times: &mut [u64; TIMES], words: &mut [u16; WORDS], time: u64)
    requires { (count_in words.old ≤ most_listed) × (sync_run words.old ≤ 4) }
    ensures { (times.new ≡ times_of (record { latest = time; core = core_in times.old words.old }))
        × (words.new ≡ words_of (record { latest = time; core = core_in times.old words.old })) }
{
    times[LATEST] = time;
    words[LOST] = u16::from(words[LOST] != 0);
}
