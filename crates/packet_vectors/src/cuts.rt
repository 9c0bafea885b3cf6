// A log cut anywhere: the log whole; then for each of its calls the log up to it, a refused call, and the call.
// State, table and memory carry everything, and a refusal changes none of them, so each line is that of the
// whole log.
use crate::tables;
use call_lines::run::Carried;
use call_lines::show::Lines;
use call_lines::{packets, run, states};

// A packet call, its time and the packet's first bytes; a clock call, its time.
#[derive(Clone, Copy)]
enum Call<'a> {
    Packet(u64, &'a [u8]),
    Clock(u64),
}

// The log: the fourth packet has a wrong first byte, the last leaves one out.
const CALLS: [Call; 7] = [
    Call::Packet(1000, &tables::PAT_OF_1),
    Call::Packet(1001, &tables::FIRST_PART),
    Call::Clock(1002),
    Call::Packet(1003, b"\x46\x40\x00\x11"),
    Call::Packet(1004, &tables::LAST_PART),
    Call::Packet(1005, b"\x47\x00\x00\x13"),
    Call::Clock(20_000_000),
];

// A call, with its line.
fn shown(lines: &mut Lines, call: Call, log: Carried) -> Carried {
    match call {
        Call::Packet(time, bytes) => run::packet(lines, b"log", log, time, bytes, 5),
        Call::Clock(time) => run::clock(lines, b"log", log, time),
    }
}

// A call, without.
fn silent(call: Call, log: Carried) -> Carried {
    match call {
        Call::Packet(time, bytes) => run::silent_packet(log, time, &packets::filled(bytes)),
        Call::Clock(time) => run::silent_clock(log, time),
    }
}

fn whole(lines: &mut Lines) {
    let mut log = run::from(states::fresh(0));
    for call in CALLS {
        log = shown(lines, call, log);
    }
}

pub fn cut_anywhere(lines: &mut Lines) {
    whole(lines);
    for (k, &call) in CALLS.iter().enumerate() {
        let mut log = run::from(states::fresh(0));
        for &before in &CALLS[..k] {
            log = silent(before, log);
        }
        log = run::silent_packet(log, 5, b"\x47");
        shown(lines, call, log);
    }
}
