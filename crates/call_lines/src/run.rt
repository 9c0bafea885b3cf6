// One call each, and its line.
ghost use Rattle.std.specs.Prelude.{◌≡◌, replicate};
ghost use Rattle.events.specs.Capacity.{least_capacity};
ghost use Rattle.sections.specs.Rooms.{memory_size};
ghost use Rattle.call_lines.specs.inner.Marks.{marked};
ghost use Rattle.call_lines.specs.inner.Left.{PacketLeft, ClockLeft};
ghost use Rattle.calls.specs.Calls.{packet_call, clock_call};

use crate::show::Lines;
use crate::{packets, show};
use byvalue::HeldLeast;
use calls::State;
use events::{Event, LEAST_CAPACITY};
use sections::MEMORY;

// What a log carries from call to call.
#[derive(Clone, Copy)]
pub struct Carried {
    pub state: State,
    pub counters: [u8; 8192],
    pub memory: [u8; MEMORY],
}

// A state with an unseen table and memory of zeros: no `From`, since these are not the state's.
pub fn from(state: State) -> Carried
    ensures { result ≡ record { state = state; counters = replicate 8192 0; memory = replicate memory_size 0 } }
{
    Carried {
        state,
        counters: [0; 8192],
        memory: [0; MEMORY],
    }
}

// An event list before a call.
pub fn marks() -> [Event; LEAST_CAPACITY]
    ensures { result ≡ replicate least_capacity marked }
{
    [show::mark(); LEAST_CAPACITY]
}

// The call, on the log where it stands: a log is large, so it is not handed on.
fn made_packet(log: &mut Carried, time: u64, p: &[u8]) -> HeldLeast
    ensures { PacketLeft (packet_call log.old.state time p.now log.old.counters log.old.memory least_capacity) log.new }
{
    let held = byvalue::packet_least(
        log.state,
        time,
        p,
        &mut log.counters,
        &mut log.memory,
        marks(),
    );
    log.state = held.answer.state;
    held
}

fn made_clock(log: &mut Carried, time: u64) -> HeldLeast
    ensures { ClockLeft (clock_call log.old.state time log.old.memory least_capacity) log.old log.new }
{
    let held = byvalue::clock_least(log.state, time, &log.memory, marks());
    log.state = held.answer.state;
    held
}

// A packet call; the half-built length is that of a room.
pub fn given(
    lines: &mut Lines,
    name: &[u8],
    mut log: Carried,
    time: u64,
    p: &[u8],
    room: usize,
) -> Carried
    ensures { PacketLeft (packet_call log.state time p.now log.counters log.memory least_capacity) result }
{
    let held = made_packet(&mut log, time, p);
    show::text(lines, name);
    show::answer(lines, held.answer);
    show::half(lines, log.state, room);
    show::table(lines, &log.counters);
    show::memory(lines, &log.memory);
    show::text(lines, b"\n");
    show::events(lines, held.list, held.answer.n);
    log
}

// The same of a packet of 188 bytes that begins with the given ones.
pub fn packet(
    lines: &mut Lines,
    name: &[u8],
    log: Carried,
    time: u64,
    bytes: &[u8],
    room: usize,
) -> Carried {
    given(lines, name, log, time, &packets::filled(bytes), room)
}

// A clock call.
pub fn clock(lines: &mut Lines, name: &[u8], mut log: Carried, time: u64) -> Carried
    ensures { ClockLeft (clock_call log.state time log.memory least_capacity) log result }
{
    let held = made_clock(&mut log, time);
    show::text(lines, name);
    show::answer(lines, held.answer);
    show::text(lines, b"\n");
    show::events(lines, held.list, held.answer.n);
    log
}

// A packet call without a line.
pub fn silent_packet(mut log: Carried, time: u64, p: &[u8]) -> Carried
    ensures { PacketLeft (packet_call log.state time p.now log.counters log.memory least_capacity) result }
{
    made_packet(&mut log, time, p);
    log
}

// A clock call without a line.
pub fn silent_clock(mut log: Carried, time: u64) -> Carried
    ensures { ClockLeft (clock_call log.state time log.memory least_capacity) log result }
{
    made_clock(&mut log, time);
    log
}

// An opening.
pub fn open(lines: &mut Lines, name: &[u8], time: u64, counters: &mut [u8]) {
    let a = probe::open(time, counters);
    show::text(lines, name);
    show::answer(lines, a);
    show::table(lines, counters);
    show::text(lines, b"\n");
}
