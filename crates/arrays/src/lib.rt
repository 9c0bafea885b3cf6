// The state as a host lends it: two arrays, by the width of their numbers, and the way to and from the
// state by value. What a call reads of them and moves in them is in `moves`. Public readers take slices, here as there.

#![tactic(auto)]

mod moves;

ghost use Rattle.std.specs.Prelude.{◌≡◌, ◌+◌, ◌<◌, ◌≤◌, [], ◌∷◌, map, length};
ghost use Rattle.std.proofs.lemmas.List.Edits.{sets};
ghost use Rattle.sections.specs.Rooms.{room_count};
ghost use Rattle.programmes.specs.Listing.{most_listed};
ghost use Rattle.arrays.specs.Lent.{count_word, gaps_in, halves_in, entry_in, entries_in, times_of, words_of, state_in, sinces_at, numbers_at, pids_at, halves_at, core_time_count, core_word_count};

use calls::{Core, State};
pub use moves::{
    count_in, drop_all, end_gap, end_pair, gaps_of, half_in, halves_of, lay_list, place_in,
    set_half, set_sync, settle, sync_lost, sync_run,
};
use programmes::MOST_LISTED;
use sections::ROOMS;
use watches::{Entry, FIXED, NO_ENTRY};

// What a host is told of a call: the refusal number (0: accepted) and the number of events. Laid out for C, so a number and no
// Result.
#[repr(C)]
#[derive(Clone, Copy)]
pub struct Reply {
    pub refusal: u32,
    pub n: usize,
}

// Where the times of a state stand in the first of the two arrays that a host lends, and how many there are: the latest
// accepted time, the gap starts of the fixed tables, those of the list's places.
pub const LATEST: usize = 0;

pub const GAPS: usize = 1;

pub const SINCES: usize = GAPS + FIXED;

pub const TIMES: usize = SINCES + MOST_LISTED;

// The other numbers, in the second one: programme numbers and PIDs of the list's places, half-built lengths, lost, run, and
// the length of the list.
pub const NUMBERS: usize = 0;

pub const PIDS: usize = NUMBERS + MOST_LISTED;

pub const HALVES: usize = PIDS + MOST_LISTED;

pub const LOST: usize = HALVES + ROOMS;

pub const RUN: usize = LOST + 1;

pub const COUNT: usize = RUN + 1;

pub const WORDS: usize = COUNT + 1;

// The gap starts of the fixed tables.
fn gaps_in(times: &[u64; TIMES]) -> [u64; FIXED]
    ensures { result ≡ gaps_in times.now }
{
    let mut out = [0u64; FIXED];
    out.copy_from_slice(gaps_of(times));
    out
}

// The half-built lengths.
pub fn halves_in(words: &[u16]) -> [u16; ROOMS]
    requires { core_word_count ≤ length words.now }
    ensures { result ≡ halves_in words.now }
{
    let mut out = [0u16; ROOMS];
    out.copy_from_slice(halves_of(words));
    out
}

// The entry at a place.
pub fn entry_at(times: &[u64], words: &[u16], k: usize) -> Entry
    requires { (core_time_count ≤ length times.now) × (core_word_count ≤ length words.now) × (k < most_listed) }
    ensures { result ≡ entry_in times.now words.now k }
{
    Entry {
        number: words[NUMBERS + k],
        pid: words[PIDS + k],
        since: times[SINCES + k],
    }
}

// How many of the entries are listed.
fn listed_in(words: &[u16]) -> usize
    requires { core_word_count ≤ length words.now }
    ensures { result ≤ most_listed }
{
    count_in(words).min(MOST_LISTED)
}

// The sixteen entries, the listed ones first: a loop whose length the compiler does not know keeps the
// entries together in memory. Two `for`s were tried, and miss a bar of speed: a PAT of sixteen programmes takes a tenth longer.
pub fn entries_in(times: &[u64], words: &[u16]) -> [Entry; MOST_LISTED]
    requires { (core_time_count ≤ length times.now) × (core_word_count ≤ length words.now) }
    ensures { result ≡ entries_in times.now words.now }
{
    let mut out = [NO_ENTRY; MOST_LISTED];
    let n = listed_in(words);
    let mut k: usize = 0;
    while k < n {
        out[k] = entry_at(times, words, k);
        k += 1;
    }
    while k < MOST_LISTED {
        out[k] = entry_at(times, words, k);
        k += 1;
    }
    out
}

// The state that two arrays hold.
pub fn state_in(times: &[u64; TIMES], words: &[u16; WORDS]) -> State
    ensures { result ≡ state_in times.now words.now }
{
    State {
        latest: times[LATEST],
        core: Core {
            lost: sync_lost(words),
            run: sync_run(words),
            since: gaps_in(times),
            count: count_in(words),
            entries: entries_in(times, words),
            half: halves_in(words),
        },
    }
}

// Values laid into an array from a place on.
fn lay<T: Copy, const N: usize>(list: &mut [T], at: usize, values: [T; N])
    requires { at + N ≤ length list.old }
    ensures { list.new ≡ sets list.old at values }
{
    list[at..at + N].copy_from_slice(&values);
}

// The gap starts of the entries, laid into the times.
fn lay_sinces(times: &mut [u64; TIMES], entries: [Entry; MOST_LISTED])
    ensures { times.new ≡ sets times.old sinces_at (map (λ e. e.since) entries) }
{
    lay(times, SINCES, entries.map(|e| e.since));
}

// Their programme numbers and PIDs, laid into the words.
fn lay_pairs(words: &mut [u16; WORDS], entries: [Entry; MOST_LISTED])
    ensures { words.new ≡ sets (sets words.old numbers_at (map (λ e. e.number) entries)) pids_at (map (λ e. e.pid) entries) }
{
    lay(words, NUMBERS, entries.map(|e| e.number));
    lay(words, PIDS, entries.map(|e| e.pid));
}

// The half-built lengths.
pub fn lay_halves(words: &mut [u16; WORDS], half: [u16; ROOMS])
    ensures { (words.new ≡ sets words.old halves_at half) × (length half ≡ room_count) }
{
    lay(words, HALVES, half);
}

// The times of a state.
pub fn lay_times(state: State, times: &mut [u64; TIMES])
    ensures { times.new ≡ times_of state }
{
    times[LATEST] = state.latest;
    lay(times, GAPS, state.core.since);
    lay_sinces(times, state.core.entries);
}

fn count_word(count: usize) -> u16
    ensures { result ≡ count_word count }
{
    u16::try_from(count).unwrap_or(65535)
}

// The words of a state.
pub fn lay_words(state: State, words: &mut [u16; WORDS])
    ensures { words.new ≡ words_of state }
{
    lay_pairs(words, state.core.entries);
    lay_halves(words, state.core.half);
    let lost = u16::from(state.core.lost);
    let run = u16::from(state.core.run);
    lay(words, LOST, [lost, run, count_word(state.core.count)]);
}
