// What a call answers and leaves, in lines.
ghost use Rattle.std.specs.Prelude.{◌≡◌};
ghost use Rattle.call_lines.specs.inner.Marks.{marked};

use calls::{Answer, State};
use events::{Event, LEAST_CAPACITY};
use sections::MEMORY;
use std::io;
use std::io::{Print, Stdout, Write};

// Where lines go. Behind a write that failed nothing more is written; `end` says why, and cannot be left out.
pub struct Lines {
    out: Stdout,
    written: io::Result<()>,
}

impl Lines {
    pub fn new(out: Stdout) -> Lines {
        Lines {
            out,
            written: Ok(()),
        }
    }

    fn put<W: FnOnce(&mut Stdout) -> io::Result<()>>(&mut self, write: W)
        requires { W.IsAlwaysCallable write }
    {
        if self.written.is_ok() {
            self.written = write(&mut self.out);
        }
    }

    // Whether all of it was written.
    pub fn end(self) -> io::Result<()> {
        let Lines { out: _, written } = self;
        written
    }
}

pub fn text(lines: &mut Lines, s: &[u8]) {
    lines.put(|out| out.write_all(s));
}

// A space and a number.
pub fn number(lines: &mut Lines, n: u64) {
    lines.put(|out| out.print(format_args!(" {n}")));
}

// What the records hold before a call.
pub(crate) fn mark() -> Event
    ensures { result ≡ marked }
{
    Event {
        stamp: 7,
        fault: 7,
        cause: 7,
        id: 7,
    }
}

// Stamp and cause decimal, fault and id four hex digits.
fn event(lines: &mut Lines, e: Event) {
    lines.put(|out| out.print(format_args!(
        "  {} {:04x} {} {:04x}\n",
        e.stamp, e.fault, e.cause, e.id
    )));
}

// The first n records, and whether the others are untouched.
pub fn events(lines: &mut Lines, list: [Event; LEAST_CAPACITY], n: usize) {
    for &e in list.iter().take(n) {
        event(lines, e);
    }
    if list.iter().skip(n).any(|&e| e != mark()) {
        text(lines, b"  a record past the events is written\n");
    }
}

// Refusal number, number of events, and the state.
pub fn answer(lines: &mut Lines, a: Answer) {
    let s = a.state;
    let c = s.core;
    lines.put(|out| out.print(format_args!(": refusal {} n {}", a.refusal, a.n)));
    lines.put(|out| out.print(format_args!(" latest {} lost {}", s.latest, u8::from(c.lost))));
    lines.put(|out| out.print(format_args!(" run {} count {}", c.run, c.count)));
}

// The half-built length of a room.
pub(crate) fn half(lines: &mut Lines, s: State, room: usize) {
    if let Some(n) = s.core.half.get(room) {
        lines.put(|out| out.print(format_args!(" half {n}")));
    }
}

// One turn of xorshift64, and a byte.
fn turned(h: u64, b: u8) -> u64 {
    let x = h ^ (h << 13);
    let y = x ^ (x >> 7);
    y ^ (y << 17) ^ u64::from(b)
}

// A digest of bytes: one written anywhere shows.
fn digest(s: &[u8]) -> u64 {
    s.iter().fold(1, |h, &b| turned(h, b))
}

// That of the counter table.
pub fn table(lines: &mut Lines, s: &[u8]) {
    lines.put(|out| out.print(format_args!(" table {:016x}", digest(s))));
}

// The same of section memory.
pub fn memory(lines: &mut Lines, m: &[u8; MEMORY]) {
    lines.put(|out| out.print(format_args!(" memory {:016x}", digest(m))));
}
