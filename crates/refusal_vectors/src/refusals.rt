// Refusals 1, 2 and 4 to 6: each call begins with every condition at once, and loses the lowest, one after the
// other. A list that is too short, refusal 3, is tried where a host lends it.
use crate::forged::{ABOVE, GREATEST};
use call_lines::run::Carried;
use call_lines::show::Lines;
use call_lines::{run, show, states};
use calls::State;
use sections::MEMORY;

pub fn openings(lines: &mut Lines) {
    run::open(
        lines,
        b"open, table of 8191, time above 2^62",
        ABOVE,
        &mut [9; 8191],
    );
    run::open(lines, b"open, table of 8193, time 5", 5, &mut [9; 8193]);
    let mut counters = [9; 8192];
    run::open(lines, b"open, time above 2^62", ABOVE, &mut counters);
    run::open(lines, b"open, time 2^62", GREATEST, &mut counters);
    run::open(lines, b"open, time 0", 0, &mut [255; 8192]);
}

fn sound() -> State {
    states::with_latest(states::fresh(100), 1000)
}

// A state with a table of zeros and memory that is no zero anywhere.
fn over(state: State) -> Carried {
    Carried {
        state,
        counters: [0; 8192],
        memory: [90; MEMORY],
    }
}

// A packet call above the greatest time with a state that is refused and a table of 8191 bytes.
// It is no `run::given`, since what that carries from call to call has a table of 8192.
fn short_table(lines: &mut Lines, name: &[u8], p: &[u8]) {
    let forged = states::with_sync(sound(), false, 2);
    let mut counters = [0; 8191];
    let mut memory = [90; MEMORY];
    let h = byvalue::packet_least(forged, ABOVE, p, &mut counters, &mut memory, run::marks());
    show::text(lines, name);
    show::answer(lines, h.answer);
    show::table(lines, &counters);
    show::memory(lines, &memory);
    show::text(lines, b"\n");
    show::events(lines, h.list, h.answer.n);
}

pub fn packets(lines: &mut Lines) {
    let mut p = [71; 188];
    p[1..4].copy_from_slice(b"\x01\x00\x10");
    short_table(lines, b"packet, 1, 2, 4 and 5", &[71; 187]);
    short_table(lines, b"packet, 189 bytes", &[71; 189]);
    short_table(lines, b"packet, no byte", b"");
    short_table(lines, b"packet, 2, 4 and 5", &p);
    let forged = over(states::with_sync(sound(), false, 2));
    run::given(lines, b"packet, 4 and 5", forged, ABOVE, &p, 0);
    run::given(lines, b"packet, 5 and 6", forged, 999, &p, 0);
    let unforged = over(sound());
    run::given(lines, b"packet, 6", unforged, 999, &p, 0);
    run::given(lines, b"packet, none", unforged, 1000, &p, 0);
}

pub fn clocks(lines: &mut Lines) {
    let forged = over(states::with_sync(sound(), true, 5));
    run::clock(lines, b"clock, 4 and 5", forged, ABOVE);
    run::clock(lines, b"clock, 5 and 6", forged, 999);
    let unforged = over(sound());
    run::clock(lines, b"clock, 6", unforged, 999);
    run::clock(lines, b"clock, none", unforged, 1000);
    run::clock(lines, b"clock, time 2^62", unforged, GREATEST);
}
