// The calls over numbers (document 01, "The calls and their numbers"): four numbers to an event. The crate
// `probe` hands them over as records. In `lent` the state is that of two lent arrays; here it goes by value.

#![tactic(auto)]

mod lent;

ghost use Rattle.std.specs.Prelude.{◌≡◌, length, replicate};
ghost use Rattle.calls.specs.Cores.{opened_state};
ghost use Rattle.calls.specs.Calls.{open_answer, open_table, packet_call, clock_call, answer_of};
ghost use Rattle.arrays.specs.inner.Kept.{Typed};
ghost use Rattle.engine.specs.inner.Numbers.{Numbered};
ghost use Rattle.engine.specs.inner.Outcomes.{answered};

use arrays::{TIMES, WORDS};
use calls::{Answer, Core, State};
use checks::Refusal;
use events::NUMBERS;
pub use lent::{clock_in, packet_in};
use programmes::MOST_LISTED;
use sections::{MEMORY, ROOMS};
use watches::{FIXED, NO_ENTRY};

// The answer to a call that left this state: where it is refused, the one that was given.
fn answer(state: State, outcome: Result<usize, Refusal>) -> Answer
    ensures { result ≡ answered state outcome }
{
    match outcome {
        Ok(n) => Answer {
            refusal: 0,
            n,
            state,
        },
        Err(refusal) => Answer {
            refusal: u32::from(refusal),
            n: 0,
            state,
        },
    }
}

// The state of an opening.
pub fn opened_at(time: u64) -> State
    ensures { result ≡ opened_state time }
{
    State {
        latest: time,
        core: Core {
            lost: false,
            run: 0,
            since: [time; FIXED],
            count: 0,
            entries: [NO_ENTRY; MOST_LISTED],
            half: [0; ROOMS],
        },
    }
}

// Every PID is unseen. A function of its own, so that what is said of the table is proved here, whatever form it has.
fn clear(counters: &mut [u8])
    ensures { counters.new ≡ replicate (length counters.old) 0 }
{
    counters.fill(0);
}

// An opening: the state is that of its time where it is accepted.
fn opened(state: &mut State, time: u64, counters: &mut [u8]) -> Result<usize, Refusal>
    requires { state.old ≡ opened_state 0 }
    ensures { (answered state.new result ≡ open_answer time counters.old) × (counters.new ≡ open_table time counters.old) }
{
    checks::check_open(time, counters)?;
    clear(counters);
    *state = opened_at(time);
    Ok(0)
}

// Opening: the table's bytes are set to 0 only where it is accepted.
pub fn open_at(time: u64, counters: &mut [u8]) -> Answer
    ensures { (result ≡ open_answer time counters.old) × (counters.new ≡ open_table time counters.old) }
{
    let mut state = opened_at(0);
    let outcome = opened(&mut state, time, counters);
    answer(state, outcome)
}

// A packet call that is accepted: how many events. The state is moved where it stands, since it is large. Most calls are quiet, and done
// where that is seen; for any other the state is laid into arrays, and read from them. What is lent stays in parameters of its own, as in
// `lent`.
fn judged_packet(
    state: &mut State,
    time: u64,
    packet: &[u8],
    counters: &mut [u8],
    memory: &mut [u8; MEMORY],
    capacity: usize,
    numbers: &mut [u64; NUMBERS],
) -> Result<usize, Refusal>
    requires { Typed state.old }
    ensures { (answered state.new result ≡ answer_of (packet_call state.old time packet.now counters.old memory.old capacity))
        × (counters.new ≡ (packet_call state.old time packet.now counters.old memory.old capacity).counters)
        × (memory.new ≡ (packet_call state.old time packet.now counters.old memory.old capacity).memory)
        × Numbered numbers.old numbers.new (packet_call state.old time packet.now counters.old memory.old capacity).events }
{
    let (h, byte) = lent::read_packet(time, packet, counters, capacity)?;
    if let Some(left) = quiet::quiet_value(*state, memory, time, packet, h, byte) {
        counters[h.pid as usize] = left;
        state.latest = time;
        return Ok(0);
    }
    let mut times = [0u64; TIMES];
    let mut words = [0u16; WORDS];
    arrays::lay_times(*state, &mut times);
    arrays::lay_words(*state, &mut words);
    let n = lent::loud_packet(
        &mut times, &mut words, time, packet, h, byte, counters, memory, capacity, numbers,
    )?;
    *state = arrays::state_in(&times, &words);
    Ok(n)
}

// A packet call, for an event list of `capacity` records.
pub fn packet_at(
    mut state: State,
    time: u64,
    packet: &[u8],
    counters: &mut [u8],
    memory: &mut [u8; MEMORY],
    capacity: usize,
    numbers: &mut [u64; NUMBERS],
) -> Answer
    ensures { (result ≡ answer_of (packet_call state time packet.now counters.old memory.old capacity))
        × (counters.new ≡ (packet_call state time packet.now counters.old memory.old capacity).counters)
        × (memory.new ≡ (packet_call state time packet.now counters.old memory.old capacity).memory)
        × Numbered numbers.old numbers.new (packet_call state time packet.now counters.old memory.old capacity).events }
{
    let outcome = judged_packet(
        &mut state, time, packet, counters, memory, capacity, numbers,
    );
    answer(state, outcome)
}

// A clock call that is accepted: how many events.
fn settled(
    state: &mut State,
    time: u64,
    memory: &[u8; MEMORY],
    capacity: usize,
    numbers: &mut [u64; NUMBERS],
) -> Result<usize, Refusal>
    requires { Typed state.old }
    ensures { (answered state.new result ≡ answer_of (clock_call state.old time memory.now capacity))
        × Numbered numbers.old numbers.new (clock_call state.old time memory.now capacity).events }
{
    let mut times = [0u64; TIMES];
    let mut words = [0u16; WORDS];
    arrays::lay_times(*state, &mut times);
    arrays::lay_words(*state, &mut words);
    let n = lent::settled(&mut times, &mut words, time, memory, capacity, numbers)?;
    *state = arrays::state_in(&times, &words);
    Ok(n)
}

// A clock call, for an event list of `capacity` records: the late events alone.
pub fn clock_at(
    mut state: State,
    time: u64,
    memory: &[u8; MEMORY],
    capacity: usize,
    numbers: &mut [u64; NUMBERS],
) -> Answer
    ensures { (result ≡ answer_of (clock_call state time memory.now capacity))
        × Numbered numbers.old numbers.new (clock_call state time memory.now capacity).events }
{
    let outcome = settled(&mut state, time, memory, capacity, numbers);
    answer(state, outcome)
}
