// Late tables, sync, continuity.
use call_lines::run::Carried;
use call_lines::show::Lines;
use call_lines::{run, states};

const GREATEST: u64 = 1 << 62;

pub fn late_tables(lines: &mut Lines) {
    let opened = run::from(states::fresh(0));
    let mut log = opened;
    let steps: [(&[u8], u64); 5] = [
        (b"PAT gap of 13500000", 13_500_000),
        (b"and one tick", 13_500_001),
        (b"SDT and EIT", 54_000_001),
        (b"NIT", 270_000_001),
        (b"TDT", 810_000_001),
    ];
    for (name, time) in steps {
        log = run::clock(lines, name, log, time);
    }
    run::clock(lines, b"all at once", opened, GREATEST);
}

// A packet of the PID 0x0100 with the error bit set, and its first byte.
fn erroneous(lines: &mut Lines, name: &[u8], first: u8, log: Carried, time: u64) -> Carried {
    let bytes = [first, 0x81, 0x00, 0x10];
    run::packet(lines, name, log, time, &bytes, 0)
}

pub fn lost_sync(lines: &mut Lines) {
    let mut log = run::from(states::with_half(states::fresh(0), 0, 2));
    let steps: [(&[u8], u8, u64); 9] = [
        (b"wrong byte", 0x46, 1),
        (b"right byte", 0x47, 2),
        (b"wrong byte", 0x00, 3),
        (b"second running", 0xFF, 4),
        (b"third", 0x46, 5),
        (b"right 1", 0x47, 6),
        (b"right 2", 0x47, 7),
        (b"right 3", 0x47, 8),
        (b"right 4", 0x47, 9),
    ];
    for (name, first, time) in steps {
        log = erroneous(lines, name, first, log, time);
    }
    log = run::clock(lines, b"late while lost", log, 13_500_001);
    erroneous(lines, b"right 5", 0x47, log, 13_500_002);
}

// Packets with payload on the PID 0x0100, each with its counter.
pub fn counters(lines: &mut Lines) {
    let mut log = run::from(states::fresh(5));
    let steps: [(&[u8], u8); 7] = [
        (b"counter 15, unseen", 15),
        (b"counter 0", 0),
        (b"counter 0, a repeat", 0),
        (b"counter 0 again", 0),
        (b"counter 0 once more", 0),
        (b"counter 1 after repeats", 1),
        (b"counter 3", 3),
    ];
    for (name, counter) in steps {
        let bytes = [0x47, 0x01, 0x00, 0x10 | counter];
        log = run::packet(lines, name, log, 5, &bytes, 0);
    }
}

// Packets on the PID 0x0100, each with its control and counter, adaptation length and flags.
pub fn adaptation(lines: &mut Lines) {
    let mut log = run::from(states::fresh(5));
    let steps: [(&[u8], [u8; 3]); 10] = [
        (b"control 10, unseen", [0x24, 183, 0]),
        (b"control 10, equal counter", [0x24, 183, 0]),
        (b"control 10, next counter", [0x25, 183, 0]),
        (b"control 10, discontinuity", [0x29, 183, 0x80]),
        (
            b"control 10, length 182, its indicator unread",
            [0x2C, 182, 0x80],
        ),
        (b"control 11, next counter", [0x3D, 182, 0]),
        (b"control 11, discontinuity", [0x32, 10, 0x80]),
        (
            b"control 11, length 183, its indicator unread",
            [0x37, 183, 0x80],
        ),
        (b"control 11, length 0", [0x3A, 0, 0x80]),
        (b"control 00", [0x05, 183, 0x80]),
    ];
    for (name, [control, length, flags]) in steps {
        let bytes = [0x47, 0x01, 0x00, control, length, flags];
        log = run::packet(lines, name, log, 5, &bytes, 0);
    }
}
