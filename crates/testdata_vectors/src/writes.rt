// Sections and descriptors that are written, and what the writers answer.
use crate::show::{hex, refused_of, show, text};
use std::io;
use std::io::Print;
use testdata::{Fields, Fixed, Head, Refusal, Syntax};

pub fn head(table_id: u8, priority: u8, reserved: u8) -> Head {
    Head {
        table_id,
        priority,
        reserved,
    }
}

// The fields that Annex B's sections share, but for those given.
pub fn syntax(reserved: u8, version: u8, current_next: u8, reserved_loop: u8) -> Syntax {
    Syntax {
        user_defined: 1,
        extension: 1,
        reserved,
        version,
        current_next,
        number: 0,
        last: 0,
        reserved_loop,
    }
}

pub fn gps(north_south: u8, latitude: u32, east_west: u8, longitude: u32, elevation: u16) -> Fixed {
    Fixed::Gps {
        north_south,
        latitude,
        east_west,
        longitude,
        elevation,
    }
}

pub fn wrote(rt: &impl Print, w: Result<usize, Refusal>) -> io::Result<()> {
    match w {
        Ok(n) => print!(rt; " length {n}"),
        Err(e) => print!(rt; " refused {}", u8::from(e)),
    }
}

// The first n bytes of s, or all of it.
fn front(s: &[u8], n: usize) -> &[u8] {
    s.get(..n).unwrap_or(s)
}

pub fn show_front(rt: &impl Print, name: &str, s: &[u8], n: usize) -> io::Result<()> {
    show(rt, name, front(s, n))
}

// A section is written, its bytes are shown, and it is read back.
pub fn written(
    rt: &impl Print,
    name: &str,
    f: Fields,
    loop_bytes: &[u8],
    data: &[u8],
    bytes: bool,
) -> io::Result<()> {
    let mut place = [0u8; 4096];
    match testdata::write(f, loop_bytes, data, &mut place) {
        Ok(n) => {
            print!(rt; "{name} written {n}")?;
            let s = front(&place, n);
            if bytes {
                hex(rt, s)?;
            }
            text(rt, "\n")?;
            show(rt, name, s)
        }
        Err(e) => {
            text(rt, name)?;
            refused_of(rt, " not written", e)
        }
    }
}

// Whether the bytes from n on are still 0xAA.
fn kept(s: &[u8], n: usize) -> bool {
    s.iter().skip(n).all(|&b| b == 0xAA)
}

// What the writer of sections answers for the first room bytes of a place, and whether all else is as it was.
pub fn refused(
    rt: &impl Print,
    name: &str,
    f: Fields,
    loop_bytes: &[u8],
    data: &[u8],
    room: usize,
) -> io::Result<()> {
    let mut place = [0xAAu8; 64];
    text(rt, name)?;
    if let Some(front) = place.get_mut(..room) {
        let w = testdata::write(f, loop_bytes, data, front);
        wrote(rt, w)?;
        match w {
            Ok(n) => {
                if kept(&place, n) {
                    text(rt, " rest kept")?;
                }
            }
            Err(_) => {
                if kept(&place, 0) {
                    text(rt, " untouched")?;
                }
            }
        }
    }
    text(rt, "\n")
}

// What a writer of one descriptor answers for the first room bytes of a place, and those bytes afterwards.
fn answered<Write: FnOnce(&mut [u8]) -> Result<usize, Refusal>>(
    rt: &impl Print,
    name: &str,
    room: usize,
    write: Write,
) -> io::Result<()>
    requires { Write.IsAlwaysCallable write }
{
    let mut place = [0xAAu8; 64];
    text(rt, name)?;
    if let Some(front) = place.get_mut(..room) {
        wrote(rt, write(front))?;
        hex(rt, front)?;
    }
    text(rt, "\n")
}

pub fn fixed(rt: &impl Print, name: &str, d: Fixed, room: usize) -> io::Result<()> {
    answered(rt, name, room, |place| testdata::write_fixed(d, place))
}

pub fn other(rt: &impl Print, name: &str, tag: u8, body: &[u8], room: usize) -> io::Result<()> {
    answered(
        rt,
        name,
        room,
        |place| testdata::write_other(tag, body, place),
    )
}
