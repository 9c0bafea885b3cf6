// The product's calls (document 01, "The calls and their numbers"): opening, a packet call and a clock call
// over a lent list of event records. The engine lays its events as numbers; `records::hand_over` writes the
// list.

#![tactic(auto)]

ghost use Rattle.std.specs.Prelude.{◌≡◌, length};
ghost use Rattle.calls.specs.Calls.{open_answer, open_table, packet_call, clock_call};
ghost use Rattle.probe.specs.Done.{PacketDone, ClockDone};

use calls::{Answer, State};
use events::{Event, NUMBERS};
use sections::MEMORY;

// Opening: the state of an opening at `time`, and a counter table of 0 throughout. Refusals 2 and 4.
pub fn open(time: u64, counters: &mut [u8]) -> Answer
    ensures { (result ≡ open_answer time counters.old) × (counters.new ≡ open_table time counters.old) }
{
    engine::open_at(time, counters)
}

// A packet call: the late events, then those of steps 1 to 5. Refusals 1 to 6.
pub fn packet(
    state: State,
    time: u64,
    packet: &[u8],
    counters: &mut [u8],
    memory: &mut [u8; MEMORY],
    events: &mut [Event],
) -> Answer
    ensures { PacketDone (packet_call state time packet.now counters.old memory.old (length events.old))
        result counters.new memory.new events.old events.new }
{
    let mut numbers = [0; NUMBERS];
    let out = engine::packet_at(
        state,
        time,
        packet,
        counters,
        memory,
        events.len(),
        &mut numbers,
    );
    records::hand_over(&numbers, out.n, events);
    out
}

// A clock call: the late events. Refusals 3 to 6. Only the engine's call tells it from `packet`; one function for both would
// take that call as a closure, and of the table and memory that the closure changes no proof would know.
pub fn clock(state: State, time: u64, memory: &[u8; MEMORY], events: &mut [Event]) -> Answer
    ensures { ClockDone (clock_call state time memory.now (length events.old)) result events.old events.new }
{
    let mut numbers = [0; NUMBERS];
    let out = engine::clock_at(state, time, memory, events.len(), &mut numbers);
    records::hand_over(&numbers, out.n, events);
    out
}
