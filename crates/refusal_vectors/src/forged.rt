// Forged states, each with its number: every condition of refusal 5 and what stands beside it unrefused.
use call_lines::show::Lines;
use call_lines::{packets, run, show, states};
use calls::{Answer, State};
use sections::MEMORY;

pub const GREATEST: u64 = 1 << 62;

pub const ABOVE: u64 = GREATEST + 1;

// `as`, as in the other files: no `From` leads from usize to u64.
fn numbers(lines: &mut Lines, a: Answer) {
    show::number(lines, u64::from(a.refusal));
    show::number(lines, a.n as u64);
}

// The refusal and the number of events of a packet call on the PID 0x0100 and of a clock call.
pub fn both_over(
    lines: &mut Lines,
    name: &[u8],
    state: State,
    time: u64,
    memory: &mut [u8; MEMORY],
) {
    let p = packets::filled(b"\x47\x01\x00\x10");
    let mut counters = [0; 8192];
    let k = byvalue::clock_least(state, time, memory, run::marks());
    let h = byvalue::packet_least(state, time, &p, &mut counters, memory, run::marks());
    show::text(lines, name);
    show::text(lines, b": packet");
    numbers(lines, h.answer);
    show::text(lines, b" clock");
    numbers(lines, k.answer);
    show::text(lines, b"\n");
}

// The same over memory of zeros.
pub fn both(lines: &mut Lines, name: &[u8], state: State, time: u64) {
    both_over(lines, name, state, time, &mut [0; MEMORY]);
}

pub fn times(lines: &mut Lines) {
    let s = states::fresh(1000);
    both(lines, b"a fresh state", s, 1000);
    both(
        lines,
        b"latest 2^62",
        states::with_latest(s, GREATEST),
        GREATEST,
    );
    both(
        lines,
        b"latest above 2^62",
        states::with_latest(s, ABOVE),
        GREATEST,
    );
    let tables = [b"PAT", b"NIT", b"SDT", b"EIT", b"TDT"];
    for (k, table) in tables.iter().enumerate() {
        show::text(lines, *table);
        both(
            lines,
            b" since above 2^62",
            states::with_since(s, k, ABOVE),
            1000,
        );
    }
    both(
        lines,
        b"TDT since 2^62, after the latest time",
        states::with_since(s, 4, GREATEST),
        1000,
    );
}

pub fn lists(lines: &mut Lines) {
    let s = states::two_listed(states::fresh(1000));
    both(lines, b"two programmes", s, 1000);
    both(lines, b"17 programmes", states::with_count(s, 17), 1000);
    // a number, a PID and a since for the second programme
    let second: [(&[u8], u16, u16, u64); 9] = [
        (b"number 0", 0, 0x1001, 0),
        (b"a number twice", 1, 0x1001, 0),
        (b"a PID twice", 2, 0x1000, 0),
        (b"PID 0x001F", 2, 0x001F, 0),
        (b"PID 0x0020", 2, 0x0020, 0),
        (b"PID 0x1FFE", 2, 0x1FFE, 0),
        (b"PID 0x1FFF", 2, 0x1FFF, 0),
        (b"PID 0xFFFF", 2, 0xFFFF, 0),
        (b"since above 2^62", 2, 0x1001, ABOVE),
    ];
    for (name, number, pid, since) in second {
        both(
            lines,
            name,
            states::with_entry(s, 1, number, pid, since),
            1000,
        );
    }
    both(
        lines,
        b"all of it in an unlisted place",
        states::with_entry(s, 2, 1, 0xFFFF, ABOVE),
        1000,
    );
    both(
        lines,
        b"16 programmes, most of number 0",
        states::with_count(s, 16),
        1000,
    );
}

pub fn syncs(lines: &mut Lines) {
    let s = states::fresh(1000);
    let forged: [(&[u8], bool, u8); 5] = [
        (b"in sync, run 1", false, 1),
        (b"in sync, run 2", false, 2),
        (b"lost, run 4", true, 4),
        (b"lost, run 5", true, 5),
        (b"lost, run 255", true, 255),
    ];
    for (name, lost, run) in forged {
        both(lines, name, states::with_sync(s, lost, run), 1000);
    }
}
