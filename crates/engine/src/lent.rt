// The calls on a state that is lent as two arrays: it is judged and moved where it stands. On a refusal nothing that was
// lent is written, the arrays neither.
ghost use Rattle.std.specs.Prelude.{◌≡◌, ◌&&◌, eqb, ℕ, ◌+◌, ◌<◌, ◌≤◌, length, get_or};
ghost use Rattle.events.specs.Capacity.{least_capacity, number_capacity};
ghost use Rattle.events.specs.Events.{events_laid};
ghost use Rattle.watches.specs.Tables.{no_entry, latest_time, fixed_count};
ghost use Rattle.watches.specs.Late.{entry_rows, rows_late};
ghost use Rattle.header.specs.Header.{packet_size, right_sync};
ghost use Rattle.header.specs.inner.Reads.{ReadOff};
ghost use Rattle.sections.specs.Rooms.{memory_size};
ghost use Rattle.programmes.specs.Listing.{most_listed};
ghost use Rattle.calls.specs.Cores.{late_of};
ghost use Rattle.calls.specs.Calls.{packet_call, clock_call};
ghost use Rattle.arrays.specs.Lent.{gaps_in, count_in, entries_in, core_in, state_in, latest_at};
ghost use Rattle.arrays.specs.inner.Kept.{listed_in};
ghost use Rattle.checks.specs.inner.Ladders.{Right};
ghost use Rattle.engine.specs.inner.Numbers.{AllFit};
ghost use Rattle.engine.specs.inner.Lent.{PacketLaid, ClockLaid};
ghost use Rattle.engine.specs.inner.Outcomes.{replied, ReadIn};

use arrays::{LATEST, Reply, TIMES, WORDS};
use checks::Refusal;
use events::NUMBERS;
use header::{Header, PACKET_SIZE, SYNC_BYTE};
use sections::MEMORY;

// The reply to a call.
fn reply(outcome: Result<usize, Refusal>) -> Reply
    ensures { result ≡ replied outcome }
{
    match outcome {
        Ok(n) => Reply { refusal: 0, n },
        Err(refusal) => Reply {
            refusal: u32::from(refusal),
            n: 0,
        },
    }
}

// The late events of the listed programmes, in list order, laid from the place n on; the next place.
fn late_entries(
    times: &[u64; TIMES],
    words: &[u16; WORDS],
    time: u64,
    numbers: &mut [u64; NUMBERS],
    n: usize,
) -> usize
    requires { (n + most_listed ≤ least_capacity) × (count_in words.now ≤ most_listed)
        × ((k : ℕ) → k < count_in words.now → (get_or (entries_in times.now words.now) k no_entry).since ≤ latest_time) }
    ensures { (result ≡ n + length (rows_late (get_or times.now latest_at 0) time (entry_rows (listed_in times.now words.now))))
        × (numbers.new ≡ events_laid numbers.old n (rows_late (get_or times.now latest_at 0) time (entry_rows (listed_in times.now words.now))))
        × ((k : ℕ) → k < count_in words.now → (get_or (entries_in times.now words.now) k no_entry).number < 65536) }
{
    let latest = times[LATEST];
    let count = arrays::count_in(words);
    let mut m = n;
    for k in 0..count {
        let e = arrays::entry_at(times, words, k);
        m = watches::late_entry(numbers, m, latest, time, e);
    }
    m
}

// The late events of a call, laid first; how many there are.
fn judge_late(
    times: &[u64; TIMES],
    words: &[u16; WORDS],
    time: u64,
    numbers: &mut [u64; NUMBERS],
) -> usize
    requires { (count_in words.now ≤ most_listed) × ((k : ℕ) → get_or (gaps_in times.now) k 0 ≤ latest_time)
        × ((k : ℕ) → k < count_in words.now → (get_or (entries_in times.now words.now) k no_entry).since ≤ latest_time) }
    ensures { (result ≡ length (late_of (get_or times.now latest_at 0) time (core_in times.now words.now)))
        × (numbers.new ≡ events_laid numbers.old 0 (late_of (get_or times.now latest_at 0) time (core_in times.now words.now)))
        × (result ≤ fixed_count + most_listed) × AllFit (late_of (get_or times.now latest_at 0) time (core_in times.now words.now)) }
{
    let latest = times[LATEST];
    let next = watches::late_tables(numbers, 0, latest, time, arrays::gaps_of(times));
    late_entries(times, words, time, numbers, next)
}

// What a call reads of its packet where refusals 1 to 4 pass it: the header, and the byte of its PID in the counter table.
pub(crate) fn read_packet(
    time: u64,
    packet: &[u8],
    counters: &[u8],
    capacity: usize,
) -> Result<(Header, u8), Refusal>
    ensures { ReadIn result time packet.now counters.now capacity }
{
    checks::check_sizes(time, packet, counters, capacity)?;
    let h = header::read(packet);
    Ok((h, counters[h.pid as usize]))
}

// A packet call that refusals 1 to 4 pass, made in all its steps: the late events, then those of the packet; how many there are.
// What is lent stays in parameters of its own, here and above: a struct of `&mut`s got no proof without a clause on each loan.
pub(crate) fn loud_packet(
    times: &mut [u64; TIMES],
    words: &mut [u16; WORDS],
    time: u64,
    packet: &[u8],
    h: Header,
    byte: u8,
    counters: &mut [u8],
    memory: &mut [u8; MEMORY],
    capacity: usize,
    numbers: &mut [u64; NUMBERS],
) -> Result<usize, Refusal>
    requires { Right time packet.now counters.old capacity × ReadOff packet.now counters.old h byte × (h.pid < 8192) }
    ensures { PacketLaid (packet_call (state_in times.old words.old) time packet.now counters.old memory.old capacity)
        (replied result) times.old times.new words.old words.new counters.new memory.new numbers.old numbers.new }
{
    checks::check_state(times, words, time, memory, byte)?;
    let late = judge_late(times, words, time, numbers);
    let n = steps::judge_packet(
        times, words, time, packet, h, byte, counters, memory, numbers, late,
    );
    times[LATEST] = time;
    Ok(n)
}

// A packet call, mostly a quiet one, which is two stores. Header and table byte are read once.
fn synced_packet(
    times: &mut [u64; TIMES],
    words: &mut [u16; WORDS],
    time: u64,
    packet: &[u8],
    counters: &mut [u8],
    memory: &mut [u8; MEMORY],
    capacity: usize,
    numbers: &mut [u64; NUMBERS],
) -> Result<usize, Refusal>
    ensures { PacketLaid (packet_call (state_in times.old words.old) time packet.now counters.old memory.old capacity)
        (replied result) times.old times.new words.old words.new counters.new memory.new numbers.old numbers.new }
{
    let (h, byte) = read_packet(time, packet, counters, capacity)?;
    if let Some(left) = quiet::quiet_packet(times, words, memory, time, packet, h, byte) {
        counters[h.pid as usize] = left;
        times[LATEST] = time;
        return Ok(0);
    }
    loud_packet(
        times, words, time, packet, h, byte, counters, memory, capacity, numbers,
    )
}

// A packet call that is not quiet, made in all its steps: a function of its own, since two calls of one would be folded, and the
// packet's first byte be read no earlier than the rest.
fn other_packet(
    times: &mut [u64; TIMES],
    words: &mut [u16; WORDS],
    time: u64,
    packet: &[u8],
    counters: &mut [u8],
    memory: &mut [u8; MEMORY],
    capacity: usize,
    numbers: &mut [u64; NUMBERS],
) -> Result<usize, Refusal>
    ensures { PacketLaid (packet_call (state_in times.old words.old) time packet.now counters.old memory.old capacity)
        (replied result) times.old times.new words.old words.new counters.new memory.new numbers.old numbers.new }
{
    let (header, byte) = read_packet(time, packet, counters, capacity)?;
    loud_packet(
        times, words, time, packet, header, byte, counters, memory, capacity, numbers,
    )
}

// Whether a packet is whole and begins with the sync byte.
fn in_step(packet: &[u8]) -> bool
    ensures { result ≡ (eqb (length packet.now) packet_size && right_sync packet.now) }
{
    packet.len() == PACKET_SIZE && packet[0] == SYNC_BYTE
}

// A packet call, for an event list of `capacity` records. The packet's first byte is looked at before all else: so the packet is
// on its way from memory while the rest of the call is judged. A call without a right one is not quiet.
pub fn packet_in(
    times: &mut [u64; TIMES],
    words: &mut [u16; WORDS],
    time: u64,
    packet: &[u8],
    counters: &mut [u8],
    memory: &mut [u8; MEMORY],
    capacity: usize,
    numbers: &mut [u64; NUMBERS],
) -> Reply
    ensures { PacketLaid (packet_call (state_in times.old words.old) time packet.now counters.old memory.old capacity)
        result times.old times.new words.old words.new counters.new memory.new numbers.old numbers.new }
{
    if in_step(packet) {
        return reply(synced_packet(
            times, words, time, packet, counters, memory, capacity, numbers,
        ));
    }
    reply(other_packet(
        times, words, time, packet, counters, memory, capacity, numbers,
    ))
}

// The late events of a clock call that is accepted; how many there are.
pub(crate) fn settled(
    times: &mut [u64; TIMES],
    words: &mut [u16; WORDS],
    time: u64,
    memory: &[u8; MEMORY],
    capacity: usize,
    numbers: &mut [u64; NUMBERS],
) -> Result<usize, Refusal>
    ensures { ClockLaid (clock_call (state_in times.old words.old) time memory.now capacity)
        (replied result) times.old times.new words.old words.new numbers.old numbers.new }
{
    checks::check_clock(times, words, time, memory, capacity)?;
    let late = judge_late(times, words, time, numbers);
    arrays::settle(times, words, time);
    Ok(late)
}

// A clock call, for an event list of `capacity` records: the late events alone.
pub fn clock_in(
    times: &mut [u64; TIMES],
    words: &mut [u16; WORDS],
    time: u64,
    memory: &[u8; MEMORY],
    capacity: usize,
    numbers: &mut [u64; NUMBERS],
) -> Reply
    ensures { ClockLaid (clock_call (state_in times.old words.old) time memory.now capacity)
        result times.old times.new words.old words.new numbers.old numbers.new }
{
    reply(settled(times, words, time, memory, capacity, numbers))
}
