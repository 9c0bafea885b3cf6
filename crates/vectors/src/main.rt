// Published vectors, run and written line by line; the file stdout beside src/ has what they should be.

#![tactic(auto)]

use std::io;
use std::io::Print;

// A name and the CRC register after the bytes s.
fn crc_of(rt: &impl Print, name: &str, s: &[u8]) -> io::Result<()> {
    println!(rt; "crc {name} {:08x}", crc::crc(s))
}

// A kind and a gap, then refusal, set, number and worst.
fn severity_of(rt: &impl Print, kind: usize, gap: u64) -> io::Result<()> {
    let r = severity::severity(kind, gap);
    println!(rt;
        "severity {kind} {gap}: {} {} {} {}",
        r.refusal, r.set, r.number, r.worst
    )
}

// The catalogue's check values of CRC-32/MPEG-2.
fn crc_catalogue(rt: &impl Print) -> io::Result<()> {
    crc_of(rt, "123456789", b"123456789")?;
    crc_of(rt, "empty", b"")?;
    crc_of(rt, "four-zeros", b"\x00\x00\x00\x00")
}

// Whole sections as other makers' writers produce them, each with its CRC at its end.
fn crc_sections(rt: &impl Print) -> io::Result<()> {
    crc_of(
        rt,
        "PAT",
        b"\x00\xb0\x0d\x00\x01\xc1\x00\x00\x00\x01\xf0\x00\x2a\xb1\x04\xb2",
    )?;
    crc_of(
        rt,
        "PMT",
        b"\x02\xb0\x17\x00\x01\xc1\x00\x00\xe1\x00\xf0\x00\x1b\xe1\x00\xf0\x00\x0f\xe1\x01\xf0\x00\x2f\x44\xb9\x9b",
    )?;
    crc_of(
        rt,
        "SDT",
        b"\x42\xf0\x25\x00\x01\xc1\x00\x00\xff\x01\xff\x00\x01\xfc\x80\x14\x48\x12\x01\x06\x46\x46\x6d\x70\x65\x67\x09\x53\x65\x72\x76\x69\x63\x65\x30\x31\x77\x7c\x43\xca",
    )?;
    crc_of(
        rt,
        "NIT",
        b"\x40\xb0\x1c\x30\x01\xc3\x00\x00\xf0\x09\x40\x07\x54\x45\x53\x54\x4e\x45\x54\xf0\x06\x00\x01\xff\x01\xf0\x00\x71\x1b\xae\x13",
    )?;
    crc_of(
        rt,
        "EIT",
        b"\x4e\xf0\x26\x00\x01\xc1\x00\x00\x00\x01\xff\x01\x00\x4e\x00\x01\xe1\xb8\x12\x00\x00\x01\x00\x00\x80\x0b\x4d\x09\x65\x6e\x67\x04\x4e\x65\x77\x73\x00\x30\x4c\x33\x4b",
    )
}

// One limit of a kind: the limit itself, and one tick above.
fn severity_edge(rt: &impl Print, kind: usize, limit: u64) -> io::Result<()> {
    severity_of(rt, kind, limit)?;
    if let Some(above) = limit.checked_add(1) {
        severity_of(rt, kind, above)?;
    }
    Ok(())
}

// The three limits of each kind, down the table.
const LIMITS: [[u64; 3]; 6] = [
    [2_700_000, 5_400_000, 13_500_000],
    [10_800_000, 21_600_000, 54_000_000],
    [13_500_000, 27_000_000, 67_500_000],
    [81_000_000, 162_000_000, 405_000_000],
    [1_620_000_000, 3_240_000_000, 8_100_000_000],
    [27_000_000, 54_000_000, 135_000_000],
];

// Every row of the table, the least and the greatest gap, and kinds that are not listed.
fn severity_table(rt: &impl Print) -> io::Result<()> {
    for (kind, limits) in LIMITS.iter().enumerate() {
        for &limit in limits {
            severity_edge(rt, kind, limit)?;
        }
    }
    severity_of(rt, 0, 0)?;
    severity_of(rt, 5, u64::MAX)?;
    severity_of(rt, 6, 0)?;
    severity_of(rt, usize::MAX, u64::MAX)
}

fn main(rt: HostRuntime) -> io::Result<()> {
    crc_catalogue(&rt)?;
    crc_sections(&rt)?;
    severity_table(&rt)
}
