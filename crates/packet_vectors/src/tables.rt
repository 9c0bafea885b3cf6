// Sections: a list and its programmes, scrambling, damage, and a section in two packets. Every CRC_32 is that
// of the bytes before it, but where the name says otherwise.
use call_lines::show::Lines;
use call_lines::{run, states};

// A PAT that lists programme 1 on the PID 0x1000, and a PMT of that programme.
pub const PAT_OF_1: [u8; 21] =
    *b"\x47\x40\x00\x10\x00\x00\xb0\x0d\x00\x01\xc1\x00\x00\x00\x01\xf0\x00\x2a\xb1\x04\xb2";

pub const PMT_OF_1: [u8; 31] =
    *b"\x47\x50\x00\x10\x00\x02\xb0\x17\x00\x01\xc1\x00\x00\xe1\x00\xf0\x00\x1b\xe1\x00\xf0\x00\x0f\xe1\x01\xf0\x00\x2f\x44\xb9\x9b";

// The same pair for programme 2 on the same PID: its PAT alone.
const PAT_OF_2: [u8; 21] =
    *b"\x47\x40\x00\x11\x00\x00\xb0\x0d\x00\x01\xc3\x00\x00\x00\x02\xf0\x00\xb6\x76\x21\x19";

// Programme 3 on the PID 0x1001, and programme 4 on a PID below 0x0020.
const PAT_WITH_BAD_LIST: [u8; 25] =
    *b"\x47\x40\x00\x12\x00\x00\xb0\x11\x00\x01\xc5\x00\x00\x00\x03\xf0\x01\x00\x04\xe0\x1f\x78\xcd\xff\xf8";

// Packet and clock calls by turns, one packet with a byte changed: as an array each call would take as many lines, and be no plainer.
pub fn list_and_programme(lines: &mut Lines) {
    let mut log = run::from(states::fresh(0));
    log = run::packet(lines, b"PAT of 1", log, 100, &PAT_OF_1, 0);
    log = run::packet(lines, b"PMT of 1", log, 200, &PMT_OF_1, 5);
    log = run::clock(lines, b"PAT gap of 13500000", log, 13_500_100);
    log = run::clock(lines, b"PAT late", log, 13_500_101);
    log = run::clock(lines, b"PMT of 1 late", log, 13_500_201);
    log = run::packet(lines, b"PAT of 2", log, 20_000_000, &PAT_OF_2, 0);
    let mut again = PMT_OF_1;
    again[3] = 0x11;
    log = run::packet(lines, b"PMT of 1, not listed", log, 20_000_001, &again, 5);
    log = run::clock(lines, b"PAT and PMT of 2 late", log, 33_500_001);
    log = run::packet(
        lines,
        b"PAT with a bad list",
        log,
        33_500_002,
        &PAT_WITH_BAD_LIST,
        0,
    );
    run::clock(lines, b"PMT of 3 late", log, 47_000_003);
}

pub fn scrambled(lines: &mut Lines) {
    let mut log = run::from(states::with_half(states::two_listed(states::fresh(0)), 0, 2));
    let steps: [(&[u8], u64, &[u8], usize); 4] = [
        (b"scrambled on PID 0", 1, b"\x47\x00\x00\x90", 0),
        (b"scrambled on a PMT PID", 2, b"\x47\x10\x01\x50", 6),
        (b"scrambled elsewhere", 3, b"\x47\x00\x11\xd0", 2),
        (
            b"scrambled, without payload",
            4,
            b"\x47\x10\x01\xe0\xb7\x00",
            6,
        ),
    ];
    for (name, time, bytes, room) in steps {
        log = run::packet(lines, name, log, time, bytes, room);
    }
}

const PAT_WITH_WRONG_CRC: [u8; 21] =
    *b"\x47\x40\x00\x10\x00\x00\xb0\x0d\x00\x01\xc1\x00\x00\x00\x01\xf0\x00\x2a\xb1\x04\xb3";

const WRONG_AND_GOOD: [u8; 37] =
    *b"\x47\x40\x00\x14\x00\x00\xb0\x0d\x00\x01\xc1\x00\x00\x00\x01\xf0\x00\x2a\xb1\x04\xb3\x00\xb0\x0d\x00\x01\xc1\x00\x00\x00\x01\xf0\x00\x2a\xb1\x04\xb2";

pub fn damaged(lines: &mut Lines) {
    let mut log = run::from(states::two_listed(states::fresh(0)));
    let steps: [(&[u8], u64, &[u8], usize); 6] = [
        (b"wrong CRC_32", 1, &PAT_WITH_WRONG_CRC, 0),
        (
            b"section_length 1022",
            2,
            b"\x47\x40\x00\x11\x00\x00\xb3\xfe",
            0,
        ),
        (
            b"section_length 8",
            3,
            b"\x47\x40\x00\x12\x00\x00\xb0\x08",
            0,
        ),
        (
            b"table_id 0x01 on PID 0",
            4,
            b"\x47\x40\x00\x13\x00\x01\x30\x01\x00",
            0,
        ),
        (
            b"table_id 0x00 on a PMT PID",
            5,
            b"\x47\x50\x01\x10\x00\x00\x30\x01\x00",
            6,
        ),
        (
            b"EIT of length 4094",
            6,
            b"\x47\x40\x12\x10\x00\x4e\xff\xfe",
            3,
        ),
    ];
    for (name, time, bytes, room) in steps {
        log = run::packet(lines, name, log, time, bytes, room);
    }
    log.state = states::with_half(log.state, 3, 2);
    log = run::packet(lines, b"pointer 183", log, 7, b"\x47\x40\x12\x11\xb7", 3);
    run::packet(
        lines,
        b"wrong CRC_32, then a good PAT",
        log,
        8,
        &WRONG_AND_GOOD,
        0,
    );
}

// A PMT section of 203 bytes: 183 of them, then 20.
pub const FIRST_PART: [u8; 13] = *b"\x47\x50\x00\x10\x00\x02\xb0\xc8\x00\x01\xc1\x00\x00";

pub const LAST_PART: [u8; 24] =
    *b"\x47\x10\x00\x11\xff\xff\xff\xff\xff\xff\xff\xff\xff\xff\xff\xff\xff\xff\xff\xff\xa7\xb3\x07\x7c";

// Packet and clock calls, one by one as in `list_and_programme`.
pub fn two_packets(lines: &mut Lines) {
    let mut log = run::from(states::two_listed(states::fresh(0)));
    log = run::packet(lines, b"183 bytes of 203", log, 1, &FIRST_PART, 5);
    log = run::packet(lines, b"the last 20", log, 2, &LAST_PART, 5);
    log = run::clock(lines, b"PAT and PMT of 2 late, not of 1", log, 13_500_002);
    run::clock(lines, b"PMT of 1 late", log, 13_500_003);
}
