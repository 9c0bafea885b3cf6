// Sections that are read: Annex B as printed, and each refusal at its boundary.
use crate::show::show;
use crate::writes::show_front;
use std::io;
use std::io::Print;

// Table B.2 as printed, completed with a CRC: its length is not that of its bytes.
pub fn annex_b_2_printed(rt: &impl Print) -> io::Result<()> {
    let mut s = [0u8; 2107];
    octets::copy(
        &mut s,
        0,
        b"\x44\xf8\x3d\x01\x01\xc1\x00\x00\x00\x31\x41\x19\x65\x6e\x67\x50\x52\x42\x53\x20\x54\x65\x73\x74\x73\x65\x71\x75\x65\x6e\x63\x65\x20\x4e\x6f\x2e\x31\x42\x04\x00\x01\x12\x34\x44\x0b\x00\xc0\x79\x12\x45\x01\x43\x02\xc0\x02",
    );
    octets::copy(&mut s, 2103, b"\x25\x60\x18\x19");
    show(rt, "B.2-printed", &s)
}

// Table B.5 as printed, completed with a CRC: its program_descriptor says 3 for a body of 4 bytes, and what follows runs past the loop.
pub fn annex_b_5_printed(rt: &impl Print) -> io::Result<()> {
    show(
        rt,
        "B.5-printed",
        b"\x48\xf0\x23\x02\x02\xc1\x00\x00\x00\x18\x45\x08\x0d\xc0\x79\x12\x45\x01\xfe\x34\x46\x03\x13\x88\xe9\x00\x40\x02\x21\x00\x40\x02\x41\x01\x2b\x69\xff\x2a",
    )
}

// Refusals 11 and 12 at their boundaries, beside the least sections that are read.
pub fn lengths(rt: &impl Print) -> io::Result<()> {
    show(
        rt,
        "least-generic",
        b"\xf7\xd0\x0b\x09\x08\x6a\x07\x06\xa0\x00\xa4\x98\x62\x67",
    )?;
    show(
        rt,
        "one-byte-less",
        b"\xf7\xd0\x0b\x09\x08\x6a\x07\x06\xa0\x00\xa4\x98\x62",
    )?;
    show(
        rt,
        "one-byte-more",
        b"\xf7\xd0\x0b\x09\x08\x6a\x07\x06\xa0\x00\xa4\x98\x62\x67\x00",
    )?;
    show(
        rt,
        "below-fixed",
        b"\x04\xf0\x0a\x01\x01\xc1\x00\x00\x00\x6e\xf4\x12\x8c",
    )?;
    show(rt, "least-plain", b"\xff\x00\x00")?;
    show(rt, "length-without-data", b"\x04\x70\x01")?;
    show(
        rt,
        "wrong-crc",
        b"\xf7\xd0\x0b\x09\x08\x6a\x07\x06\xa0\x00\xa4\x98\x62\x66",
    )
}

// Refusal 13 at its boundaries, and before 14.
pub fn loops(rt: &impl Print) -> io::Result<()> {
    show(
        rt,
        "loop-to-the-crc",
        b"\x04\xf0\x0d\x01\x01\xc1\x00\x00\x00\x02\x41\x00\x26\xf9\x55\x2e",
    )?;
    show(
        rt,
        "loop-past-the-crc",
        b"\x04\xf0\x0d\x01\x01\xc1\x00\x00\x00\x03\x41\x00\x27\x21\xf9\xa9",
    )?;
    show(
        rt,
        "descriptor-past-the-loop",
        b"\x04\xf0\x12\x01\x01\xc1\x00\x00\x00\x06\x41\x05\x00\x01\x02\x03\x04\x76\xb8\x42\x38",
    )?;
    show(
        rt,
        "descriptor-to-the-end",
        b"\x04\xf0\x12\x01\x01\xc1\x00\x00\x00\x06\x41\x04\x00\x01\x02\x03\x04\x6d\x90\x4f\x40",
    )?;
    show(
        rt,
        "spare-byte",
        b"\x04\xf0\x0e\x01\x01\xc1\x00\x00\x00\x03\x41\x00\x41\x99\xee\xb7\xa0",
    )?;
    show(
        rt,
        "past-before-size",
        b"\x04\xf0\x10\x01\x01\xc1\x00\x00\x00\x05\x40\x01\x00\x41\x05\x2f\x07\x31\xe7",
    )
}

// Refusal 14: each fixed body one byte short and one byte long.
pub fn sizes(rt: &impl Print) -> io::Result<()> {
    show(
        rt,
        "elementary-short",
        b"\x04\xf0\x0e\x01\x01\xc1\x00\x00\x00\x03\x40\x01\x00\x7a\x68\xb7\x3b",
    )?;
    show(
        rt,
        "elementary-long",
        b"\x04\xf0\x10\x01\x01\xc1\x00\x00\x00\x05\x40\x03\x00\x00\x00\x17\x87\xdf\xc5",
    )?;
    show(
        rt,
        "gps-short",
        b"\x04\xf0\x14\x01\x01\xc1\x00\x00\x00\x09\x45\x07\x00\x00\x00\x00\x00\x00\x00\x38\x92\x7f\x1a",
    )?;
    show(
        rt,
        "gps-long",
        b"\x04\xf0\x16\x01\x01\xc1\x00\x00\x00\x0b\x45\x09\x00\x00\x00\x00\x00\x00\x00\x00\x00\xeb\x44\xaa\x46",
    )?;
    show(
        rt,
        "pcr-short",
        b"\x04\xf0\x10\x01\x01\xc1\x00\x00\x00\x05\x46\x03\x00\x00\x00\xa5\x69\x93\x5c",
    )?;
    show(
        rt,
        "pcr-long",
        b"\x04\xf0\x12\x01\x01\xc1\x00\x00\x00\x07\x46\x05\x00\x00\x00\x00\x00\x7b\x4f\x71\x84",
    )?;
    show(
        rt,
        "program-short",
        b"\x04\xf0\x10\x01\x01\xc1\x00\x00\x00\x05\x47\x03\x00\x00\x00\xec\x64\xf4\xd1",
    )?;
    show(
        rt,
        "program-long",
        b"\x04\xf0\x12\x01\x01\xc1\x00\x00\x00\x07\x47\x05\x00\x00\x00\x00\x00\x34\x18\x19\x95",
    )
}

// Values are not policed: all ones, all zeros, a tag twice.
pub fn values(rt: &impl Print) -> io::Result<()> {
    show(
        rt,
        "all-ones",
        b"\xff\xf0\x28\xff\xff\xff\xff\xff\xf0\x1c\x40\x02\xff\xff\x45\x08\xff\xff\xff\xff\xff\xff\xff\xff\x46\x04\xff\xff\xff\xff\x47\x04\xff\xff\xff\xff\x43\x00\xff\xbf\xb0\xd6\xc2",
    )?;
    show(
        rt,
        "all-zeros",
        b"\x00\x80\x28\x00\x00\x00\x00\x00\x00\x1c\x40\x02\x00\x00\x45\x08\x00\x00\x00\x00\x00\x00\x00\x00\x46\x04\x00\x00\x00\x00\x47\x04\x00\x00\x00\x00\x00\x00\x00\x75\x4c\xdd\x23",
    )?;
    show(
        rt,
        "twice-the-same-tag",
        b"\x04\xf0\x13\x01\x01\xc1\x00\x00\x00\x08\x40\x02\x21\x00\x40\x02\x21\x00\x94\xe8\xea\x1e",
    )
}

// n zeros and n ones.
fn of_length(rt: &impl Print, n: usize) -> io::Result<()> {
    let zeros = [0u8; 20];
    let ones = [255u8; 20];
    show_front(rt, "zeros", &zeros, n)?;
    show_front(rt, "ones", &ones, n)
}

// Zeros and ones of every length up to 20.
pub fn every_length(rt: &impl Print) -> io::Result<()> {
    for n in 0..21usize {
        of_length(rt, n)?;
    }
    Ok(())
}

// A section of n bytes with indicator 0.
fn large(rt: &impl Print, n: usize, length: usize) -> io::Result<()> {
    let mut s = [0u8; 4098];
    s[0] = 4;
    s[1] = (112 + length / 256 % 16) as u8;
    s[2] = (length % 256) as u8;
    show_front(rt, "plain", &s, n)
}

// 4,096 bytes are read, one more is not.
pub fn largest(rt: &impl Print) -> io::Result<()> {
    large(rt, 4096, 4093)?;
    large(rt, 4097, 4094)?;
    large(rt, 4098, 4095)
}
