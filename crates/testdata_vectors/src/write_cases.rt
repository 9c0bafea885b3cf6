// Sections and descriptors that are written: Annex B, and each refusal at its boundary.
use crate::show::text;
use crate::writes::{fixed, gps, head, other, refused, syntax, written, wrote};
use std::io;
use std::io::Print;
use testdata::{Fields, Fixed};

// Tables B.1, B.3 and B.4 (N = 1 and 2) as printed, the CRC computed.
pub fn annex_b_written(rt: &impl Print) -> io::Result<()> {
    written(
        rt,
        "B.1",
        Fields::Generic(head(16, 0, 7), syntax(3, 0, 1, 0)),
        b"\x40\x02\x01\x00\x42\x1b\x66\x72\x65\x6d\x65\x73\x75\x72\x65\x73\x20\x64\x65\x20\x71\x75\x61\x6c\x69\x74\xe9\x20\x76\x69\x64\xe9\x6f\x42\x02\x00\x01",
        b"\x4a\x03\x02\x03\x3f\x80\x00\x00\x40\x00\x00\x00\x40\x40\x00\x00\x40\x80\x00\x00\x40\xa0\x00\x00\x40\xc0\x00\x00",
        true,
    )?;
    written(
        rt,
        "B.3",
        Fields::Plain(head(20, 0, 7)),
        b"",
        b"\x00\x01\x00\x02\x03\xe9\x01\x00\x03\x00\x00\x02",
        true,
    )?;
    written(
        rt,
        "B.4-1",
        Fields::Plain(head(19, 0, 7)),
        b"",
        b"\x00\x01\x02\x03\x04\x05\x06\x07",
        true,
    )?;
    written(
        rt,
        "B.4-2",
        Fields::Plain(head(19, 0, 7)),
        b"",
        b"\x00\x01\x02\x03\x04\x05\x06\x07\x08\x09\x0a\x0b\x0c\x0d\x0e\x0f",
        true,
    )
}

// Table B.2 with computed lengths: the printed ones contradict each other.
pub fn annex_b_2_written(rt: &impl Print) -> io::Result<()> {
    let zeros = [0u8; 2048];
    written(
        rt,
        "B.2",
        Fields::Generic(head(17, 0, 7), syntax(3, 0, 1, 0)),
        b"\x41\x19\x65\x6e\x67\x50\x52\x42\x53\x20\x54\x65\x73\x74\x73\x65\x71\x75\x65\x6e\x63\x65\x20\x4e\x6f\x2e\x31\x42\x04\x00\x01\x12\x34\x44\x06\x00\xc0\x79\x12\x45\x01\x43\x02\xc0\x02",
        &zeros,
        false,
    )
}

// The writer refuses each number that is too wide for its field.
pub fn too_wide(rt: &impl Print) -> io::Result<()> {
    refused(
        rt,
        "wide-table-id",
        Fields::Generic(head(64, 0, 7), syntax(3, 0, 1, 0)),
        b"",
        b"",
        64,
    )?;
    refused(
        rt,
        "wide-priority",
        Fields::Generic(head(1, 4, 7), syntax(3, 0, 1, 0)),
        b"",
        b"",
        64,
    )?;
    refused(
        rt,
        "wide-reserved",
        Fields::Generic(head(1, 0, 8), syntax(3, 0, 1, 0)),
        b"",
        b"",
        64,
    )?;
    refused(
        rt,
        "wide-reserved-version",
        Fields::Generic(head(1, 0, 7), syntax(4, 0, 1, 0)),
        b"",
        b"",
        64,
    )?;
    refused(
        rt,
        "wide-version",
        Fields::Generic(head(1, 0, 7), syntax(3, 32, 1, 0)),
        b"",
        b"",
        64,
    )?;
    refused(
        rt,
        "wide-current-next",
        Fields::Generic(head(1, 0, 7), syntax(3, 0, 2, 0)),
        b"",
        b"",
        64,
    )?;
    refused(
        rt,
        "wide-reserved-loop",
        Fields::Generic(head(1, 0, 7), syntax(3, 0, 1, 16)),
        b"",
        b"",
        64,
    )
}

// The writer judges 14, then 13, then 15; what is written ends where it says.
pub fn in_order(rt: &impl Print) -> io::Result<()> {
    refused(
        rt,
        "spare-byte",
        Fields::Generic(head(1, 0, 7), syntax(3, 0, 1, 0)),
        b"\x41",
        b"",
        64,
    )?;
    refused(
        rt,
        "past-the-loop",
        Fields::Generic(head(1, 0, 7), syntax(3, 0, 1, 0)),
        b"\x41\x02\x00",
        b"",
        64,
    )?;
    refused(
        rt,
        "size-before-wide",
        Fields::Generic(head(64, 0, 7), syntax(3, 0, 1, 0)),
        b"\x40\x01\x00",
        b"",
        64,
    )?;
    refused(
        rt,
        "size-before-past",
        Fields::Generic(head(1, 0, 7), syntax(3, 0, 1, 0)),
        b"\x40\x03\x00",
        b"",
        64,
    )?;
    refused(
        rt,
        "loop-of-a-plain-one",
        Fields::Plain(head(1, 0, 7)),
        b"\x41\x00",
        b"",
        64,
    )?;
    refused(
        rt,
        "wide-before-short",
        Fields::Generic(head(64, 0, 7), syntax(3, 0, 1, 0)),
        b"",
        b"",
        0,
    )?;
    refused(
        rt,
        "one-byte-short",
        Fields::Generic(head(1, 0, 7), syntax(3, 0, 1, 0)),
        b"\x41\x00",
        b"\x07",
        16,
    )?;
    refused(
        rt,
        "just-enough",
        Fields::Generic(head(1, 0, 7), syntax(3, 0, 1, 0)),
        b"\x41\x00",
        b"\x07",
        17,
    )
}

// The longest section, and one byte more.
pub fn longest(rt: &impl Print) -> io::Result<()> {
    let data = [0u8; 4083];
    let mut place = [0u8; 4200];
    let f = Fields::Generic(head(1, 0, 7), syntax(3, 0, 1, 0));
    text(rt, "longest")?;
    wrote(rt, testdata::write(f, b"", &data[..4082], &mut place))?;
    text(rt, "\n")?;
    text(rt, "too-long")?;
    wrote(rt, testdata::write(f, b"", &data, &mut place))?;
    text(rt, "\n")
}

// Writers of one descriptor of fixed size.
pub fn fixed_first(rt: &impl Print) -> io::Result<()> {
    fixed(
        rt,
        "elementary",
        Fixed::ElementaryId {
            id_type: 7,
            pid: 8191,
        },
        4,
    )?;
    fixed(
        rt,
        "elementary-wide-type",
        Fixed::ElementaryId { id_type: 8, pid: 0 },
        4,
    )?;
    fixed(
        rt,
        "elementary-wide-pid",
        Fixed::ElementaryId {
            id_type: 0,
            pid: 8192,
        },
        3,
    )?;
    fixed(
        rt,
        "elementary-short",
        Fixed::ElementaryId { id_type: 0, pid: 0 },
        3,
    )?;
    fixed(rt, "gps", gps(1, 1193046, 0, 8388607, 43981), 10)?;
    fixed(rt, "gps-wide-latitude", gps(0, 8388608, 0, 0, 0), 10)?;
    fixed(rt, "gps-wide-west", gps(0, 0, 2, 0, 0), 10)
}

// The other two.
pub fn fixed_rest(rt: &impl Print) -> io::Result<()> {
    fixed(rt, "pcr", Fixed::ReducedPcr { base: 4294967295 }, 6)?;
    fixed(rt, "pcr-short", Fixed::ReducedPcr { base: 0 }, 5)?;
    fixed(
        rt,
        "program",
        Fixed::Program {
            number: 5000,
            reserved: 7,
            pid: 2304,
        },
        7,
    )?;
    fixed(
        rt,
        "program-wide-reserved",
        Fixed::Program {
            number: 0,
            reserved: 8,
            pid: 0,
        },
        6,
    )
}

// Writers of one descriptor of any tag.
pub fn others(rt: &impl Print) -> io::Result<()> {
    other(rt, "other", 67, b"\xc0\x02", 5)?;
    other(rt, "other-fixed-tag", 64, b"\x21\x00", 4)?;
    other(rt, "other-wrong-size", 64, b"\x21", 2)?;
    other(rt, "other-short", 67, b"\xc0\x02", 3)
}
