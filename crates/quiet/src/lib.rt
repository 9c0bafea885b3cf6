// A packet call of which nothing is to be said, seen at a glance: most packets of a stream are elementary data of which
// the engine only counts, and then the call is two stores. What is not seen at a glance is left to the call itself. The
// state may stand in the lent arrays or be a value: `standing` has what is asked of it. Where `&` and `|` join tests here, that is
// meant: each is a comparison, and one branch behind them all is less than one for each.

#![tactic(auto)]

mod standing;

ghost use Rattle.std.specs.Prelude.{◌≡◌, ◌≤◌, false, not, ◌&&◌, ◌||◌, [], ◌∷◌, eqb, leb, length, take};
ghost use Rattle.watches.specs.Tables.{fixed_tables, latest_time, fixed_count};
ghost use Rattle.watches.specs.Late.{table_rows};
ghost use Rattle.header.specs.Header.{packet_size, sync_byte, header_of};
ghost use Rattle.sections.specs.Rooms.{room_count};
ghost use Rattle.programmes.specs.Listing.{lowest_pid, null_pid, most_listed};
ghost use Rattle.calls.specs.Sound.{rooms_sound};
ghost use Rattle.arrays.specs.Lent.{state_in, core_time_count, core_word_count};
ghost use Rattle.arrays.specs.inner.Kept.{Typed};
ghost use Rattle.quiet.specs.inner.Quiet.{gap_quiet, rows_quiet, entry_quiet, entries_quiet, unmarked, latest_quiet, state_quiet, count_quiet, quiet_call, glance_of};

use calls::{GREATEST_PID, State};
use header::{Header, SYNC_BYTE};
use programmes::{LOWEST_PID, MOST_LISTED, NULL_PID};
use sections::MEMORY;
use standing::{Standing, Value, View};
use watches::{
    EIT_LIMIT, Entry, LATEST_TIME, NIT_LIMIT, PAT_LIMIT, PMT_LIMIT, SDT_LIMIT, TDT_LIMIT,
};

// Whether a gap start is not above 2^62 and its stamp does not fall due as time goes from p to t: of a watch with one limit.
fn gap_quiet(since: u64, limit: u64, p: u64, t: u64) -> bool
    requires { limit ≤ latest_time }
    ensures { result ≡ gap_quiet (limit ∷ []) p t since }
{
    if since <= LATEST_TIME {
        let stamp = since + limit;
        !((p <= stamp) & (stamp < t))
    } else {
        false
    }
}

// Whether those of the fixed tables are quiet, down the table. Written out for speed: five constant limits, no loop over a
// table. The five starts are those of the fixed tables in their order, a part of the lent times, so a slice.
fn tables_quiet(since: &[u64], p: u64, t: u64) -> bool
    requires { length since.now ≡ fixed_count }
    ensures { result ≡ rows_quiet p t (table_rows fixed_tables since.now) }
{
    gap_quiet(since[0], PAT_LIMIT, p, t)
        && gap_quiet(since[1], NIT_LIMIT, p, t)
        && gap_quiet(since[2], SDT_LIMIT, p, t)
        && gap_quiet(since[3], EIT_LIMIT, p, t)
        && gap_quiet(since[4], TDT_LIMIT, p, t)
}

// Whether a listed entry is one that refusal 5 passes, quiet, and on another PID than q. Near `entry_sound` of checks, but
// it adds the PID q and the stamp, and is one expression without a branch between its tests.
fn entry_quiet(e: Entry, p: u64, t: u64, q: u16) -> bool
    ensures { result ≡ entry_quiet p t q e }
{
    (e.number != 0)
        & (LOWEST_PID <= e.pid)
        & (e.pid <= GREATEST_PID)
        & (e.pid != q)
        & gap_quiet(e.since, PMT_LIMIT, p, t)
}

// Whether the listed entries are, with no two numbers of the same remainder. `entries_sound` of checks, beside it, goes backwards and
// searches where two are. Not in line, for speed: within the packet call the loop's ways out are far jumps, and sixteen programmes
// take about a seventh more time.
#[inline(never)]
fn entries_quiet<S: Standing>(standing: &S, count: usize, p: u64, t: u64, q: u16) -> bool
    requires { count ≤ most_listed }
    ensures { result ≡ entries_quiet p t q unmarked (take count (S.state standing.now).core.entries) }
{
    let mut marks = [false; 64];
    for k in 0..count {
        let e = standing.entry(k);
        if !entry_quiet(e, p, t, q) {
            return false;
        }
        let mark = usize::from(e.number % 64);
        if marks[mark] {
            return false;
        }
        marks[mark] = true;
    }
    true
}

// Whether sync is not lost, with no wrong byte before, and the list within bounds.
fn sync_quiet(lost: bool, run: u8, count: usize) -> bool
    ensures { result ≡ (not lost && eqb run 0 && leb count most_listed) }
{
    !lost & (run == 0) & (count <= MOST_LISTED)
}

// Whether the latest time is not above 2^62, and the call's not below it.
fn latest_quiet(p: u64, t: u64) -> bool
    ensures { result ≡ latest_quiet p t }
{
    (p <= LATEST_TIME) & (p <= t)
}

// The rest of the state: half-built sections as refusal 5 has them. Mostly there are none, and no call is made.
fn rest_quiet(half: &[u16], memory: &[u8; MEMORY]) -> bool
    requires { length half.now ≡ room_count }
    ensures { result ≡ rooms_sound half.now memory.now }
{
    checks::none_half(half) || checks::rooms_sound(half, memory)
}

// Whether the state is quiet for a packet of the PID q.
#[tactic(auto, unfolding(crate::specs::inner::Quiet::state_quiet))]
fn state_quiet<S: Standing>(standing: &S, memory: &[u8; MEMORY], t: u64, q: u16) -> bool
    ensures { result ≡ state_quiet (S.state standing.now) memory.now t q }
{
    let count = standing.count();
    let p = standing.latest();
    sync_quiet(standing.lost(), standing.run(), count)
        && latest_quiet(p, t)
        && rest_quiet(standing.halves(), memory)
        && tables_quiet(standing.gaps(), p, t)
        && entries_quiet(standing, count, p, t, q)
}

// Whether the packet is in sync and without a transport error, on a PID of elementary streams or the null PID.
fn head_quiet(sync: u8, h: Header) -> bool
    ensures { result ≡ (eqb sync sync_byte && not h.error && leb lowest_pid h.pid) }
{
    (sync == SYNC_BYTE) & !h.error & (LOWEST_PID <= h.pid)
}

// Step 3: a null packet, or no payload at all. The one line stands in `judge_header` of steps too, each beside the step that it says.
fn is_idle(h: Header) -> bool
    ensures { result ≡ (eqb h.pid null_pid || eqb h.control 0) }
{
    (h.pid == NULL_PID) | (h.control == 0)
}

// A packet as the glance takes it: with its header, and the byte of its PID in the counter table.
#[derive(Clone, Copy)]
struct Seen<'a> {
    packet: &'a [u8],
    h: Header,
    byte: u8,
    ghost whole: { (length packet.now ≡ packet_size) × (h ≡ header_of packet.now) },
}

// The byte of the packet's PID in the counter table after steps 3 and 4, where the packet is one of which only the counter is
// looked at, with nothing to be said of it. Step 4 is judged here by the function that judges it for every other packet.
#[tactic(auto, unfolding(header::specs::Header::header_of))]
fn count_quiet(seen: Seen) -> Option<u8>
    ensures { result ≡ glance_of (count_quiet seen.entry.packet.now seen.entry.byte) seen.entry.packet.now seen.entry.byte }
{
    let Seen { packet, h, byte } = seen;
    if !head_quiet(packet[0], h) || !continuity::known_byte(byte) {
        return None;
    }
    if is_idle(h) {
        return Some(byte);
    }
    let j = continuity::judge(byte, h);
    if j.event { None } else { Some(j.byte) }
}

// The byte that a packet call leaves in the counter table, where refusals 1 to 4 pass it and nothing is to be said of it.
#[tactic(auto, unfolding(header::specs::Header::header_of))]
fn glance<S: Standing>(standing: &S, memory: &[u8; MEMORY], time: u64, seen: Seen) -> Option<u8>
    ensures { result ≡ glance_of (quiet_call (S.state standing.now) memory.now time seen.entry.packet.now seen.entry.byte)
        seen.entry.packet.now seen.entry.byte }
{
    let left = count_quiet(seen)?;
    state_quiet(standing, memory, time, seen.h.pid).then_some(left)
}

// That of a call on lent arrays.
pub fn quiet_packet(
    times: &[u64],
    words: &[u16],
    memory: &[u8; MEMORY],
    time: u64,
    packet: &[u8],
    h: Header,
    byte: u8,
) -> Option<u8>
    requires core_time_count_in_bounds { (core_time_count ≤ length times.now) × (core_word_count ≤ length words.now) }
    requires packet_len { (length packet.now ≡ packet_size) × (h ≡ header_of packet.now) }
    ensures { result ≡ glance_of (quiet_call (state_in times.now words.now) memory.now time packet.now byte) packet.now byte }
{
    let seen = Seen { packet, h, byte };
    glance(&View { times, words }, memory, time, seen)
}

// That of a call on a state by value.
pub fn quiet_value(
    state: State,
    memory: &[u8; MEMORY],
    time: u64,
    packet: &[u8],
    h: Header,
    byte: u8,
) -> Option<u8>
    requires { (length packet.now ≡ packet_size) × (h ≡ header_of packet.now) }
    ensures { result ≡ glance_of (quiet_call state memory.now time packet.now byte) packet.now byte }
{
    let seen = Seen { packet, h, byte };
    glance(&Value { state: &state }, memory, time, seen)
}
