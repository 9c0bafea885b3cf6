// Forged half-built sections: lengths that a section of the room cannot have, and those beside them.
ghost use Rattle.std.specs.Prelude.{◌+◌, ◌<◌};
ghost use Rattle.sections.specs.Rooms.{memory_size};

use crate::forged;
use call_lines::show::Lines;
use call_lines::{show, states};
use sections::MEMORY;

// A state whose room holds the first three bytes of a section, half-built up to two and three.
fn header(lines: &mut Lines, name: &[u8], room: usize, at: usize, bytes: [u8; 3])
    requires { (room < 21) × (at + 2 < memory_size) }
{
    let s = states::fresh(1000);
    let mut m = [0; MEMORY];
    m[at..at + 3].copy_from_slice(&bytes);
    let lengths: [(&[u8], u16); 2] = [(b", two bytes", 2), (b", three bytes", 3)];
    for (text, half) in lengths {
        show::text(lines, name);
        forged::both_over(lines, text, states::with_half(s, room, half), 1000, &mut m);
    }
}

pub fn headers(lines: &mut Lines) {
    // a room, where it begins, and a section's first three bytes
    let sections: [(&[u8], usize, usize, [u8; 3]); 11] = [
        (b"length 1021", 0, 0, [0x00, 0xB3, 0xFD]),
        (b"length 1022", 0, 0, [0x00, 0xB3, 0xFE]),
        (b"length 9", 0, 0, [0x00, 0xB0, 0x09]),
        (b"length 8", 0, 0, [0x00, 0xB0, 0x08]),
        (b"length 1, no syntax indicator", 0, 0, [0x00, 0x30, 0x01]),
        (b"length 0, no syntax indicator", 0, 0, [0x00, 0x30, 0x00]),
        (b"0x73 of length 4", 4, 7168, [0x73, 0x70, 0x04]),
        (b"0x73 of length 3", 4, 7168, [0x73, 0x70, 0x03]),
        (b"EIT of length 4093", 3, 3072, [0x4E, 0xFF, 0xFD]),
        (b"EIT of length 4094", 3, 3072, [0x4E, 0xFF, 0xFE]),
        (b"SDT of length 1022", 2, 2048, [0x42, 0xF3, 0xFE]),
    ];
    for (name, room, at, bytes) in sections {
        header(lines, name, room, at, bytes);
    }
}

// Three bytes of 0 are a whole section, in every room, listed or not.
pub fn every_room(lines: &mut Lines) {
    let s = states::fresh(1000);
    for room in 0..21 {
        show::text(lines, b"room");
        show::number(lines, room as u64);
        forged::both(
            lines,
            b", three bytes of 0",
            states::with_half(s, room, 3),
            1000,
        );
    }
}
