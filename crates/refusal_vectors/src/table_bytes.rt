// The table byte of the packet's PID, from 0 to 255: a packet with payload and counter 0.
use call_lines::show::Lines;
use call_lines::{packets, run, show, states};
use sections::MEMORY;

fn byte(lines: &mut Lines, b: u8) {
    let p = packets::filled(b"\x47\x01\x00\x10");
    let mut counters = [0; 8192];
    let mut memory = [0; MEMORY];
    counters[256] = b;
    let s = states::fresh(0);
    let a = byvalue::packet_least(s, 0, &p, &mut counters, &mut memory, run::marks()).answer;
    show::text(lines, b"table byte");
    show::number(lines, u64::from(b));
    show::text(lines, b": refusal");
    show::number(lines, u64::from(a.refusal));
    show::text(lines, b" n");
    show::number(lines, a.n as u64);
    show::text(lines, b" byte");
    show::number(lines, u64::from(counters[256]));
    show::text(lines, b"\n");
}

pub fn every_byte(lines: &mut Lines) {
    for b in 0..=u8::MAX {
        byte(lines, b);
    }
}
