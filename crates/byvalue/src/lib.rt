// The product's calls with the event list taken and handed back by value, beside the answer, for programs. A list has the
// least number of records that is accepted. Each hands on to its call of `probe`, and no more: two calls, two functions.

#![tactic(auto)]

ghost use Rattle.events.specs.Capacity.{least_capacity};
ghost use Rattle.calls.specs.Calls.{packet_call, clock_call};
ghost use Rattle.probe.specs.Done.{PacketDone, ClockDone};

use calls::{Answer, State};
use events::{Event, LEAST_CAPACITY};
use sections::MEMORY;

#[derive(Clone, Copy)]
pub struct HeldLeast {
    pub answer: Answer,
    pub list: [Event; LEAST_CAPACITY],
}

// A packet call with a list of so many records.
pub fn packet_least(
    state: State,
    time: u64,
    packet: &[u8],
    counters: &mut [u8],
    memory: &mut [u8; MEMORY],
    mut list: [Event; LEAST_CAPACITY],
) -> HeldLeast
    ensures { PacketDone (packet_call state time packet.now counters.old memory.old least_capacity)
        result.answer counters.new memory.new list result.list }
{
    let answer = probe::packet(state, time, packet, counters, memory, &mut list);
    HeldLeast { answer, list }
}

// A clock call with a list of so many records.
pub fn clock_least(
    state: State,
    time: u64,
    memory: &[u8; MEMORY],
    mut list: [Event; LEAST_CAPACITY],
) -> HeldLeast
    ensures { ClockDone (clock_call state time memory.now least_capacity) result.answer list result.list }
{
    let answer = probe::clock(state, time, memory, &mut list);
    HeldLeast { answer, list }
}
