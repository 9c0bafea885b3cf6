// Reads and writes that go on: after a signal at once, and where a descriptor has nothing to give or no room to
// take (EAGAIN) after a pause, so that waiting costs little time of the processor. What a descriptor gives and takes
// no contract can say.

#![tactic(auto)]

ghost use Rattle.std.specs.Prelude.{OnOk};
ghost use Rattle.std.specs.Io.{ReadsAtMost, WritesAtMost};
ghost use Rattle.std.specs.Io.KnownBytes.{Appends, ReadConsumes, WriteAppends};

use std::io::{Error, ErrorKind, Read, Write};
use std::time::{Clock, Duration};
use std::{io, thread};

// Nothing says that a call ever succeeds, so tries are counted down: at one a nanosecond that takes five hundred
// years.
const MOST_TRIES: u64 = u64::MAX;

// Whether the call that failed just now is to be made again, and where it has to wait for that, the waiting: a
// thousandth of a second.
fn again(clock: &impl Clock, why: &Error) -> bool {
    match why.kind() {
        ErrorKind::Interrupted => true,
        ErrorKind::WouldBlock => {
            thread::sleep(clock, Duration::from_millis(1));
            true
        }
        _ => false,
    }
}

// One read: how many bytes it brought, 0 at the input's end. `write_some` is its twin: one function that takes the call as
// a closure was tried, and what a closure changes of the lent reader and bytes no proof knows, so `bytes` was lost.
pub fn read_some<R: Read>(clock: &impl Clock, reader: &mut R, buf: &mut [u8]) -> io::Result<usize>
    ensures bound { ReadsAtMost result buf.new }
    ensures bytes { ReadConsumes (R.remaining reader.old) (R.remaining reader.new) result buf.new }
{
    for _ in 0..MOST_TRIES {
        match reader.read(buf) {
            Err(why) if again(clock, &why) => {}
            done => return done,
        }
    }
    Err(Error::from(ErrorKind::WouldBlock))
}

// One write: how many of the bytes were taken.
fn write_some<W: Write>(clock: &impl Clock, writer: &mut W, buf: &[u8]) -> io::Result<usize>
    ensures bound { WritesAtMost result buf.now }
    ensures bytes { WriteAppends (W.contents writer.old) (W.contents writer.new) result buf.now }
{
    for _ in 0..MOST_TRIES {
        match writer.write(buf) {
            Err(why) if again(clock, &why) => {}
            done => return done,
        }
    }
    Err(Error::from(ErrorKind::WouldBlock))
}

// All of the bytes written, in as many writes as it takes. Where it answers an error a write failed, or took nothing
// for no reason (`WriteZero`), and some of the bytes may be written.
pub fn write_whole<W: Write>(clock: &impl Clock, writer: &mut W, buf: &[u8]) -> io::Result<()>
    ensures bytes { OnOk result (Appends (W.contents writer.old) (W.contents writer.new) buf.now) }
{
    let mut rest = buf;
    while !rest.is_empty() {
        let n = write_some(clock, writer, rest)?;
        if n == 0 {
            return Err(Error::from(ErrorKind::WriteZero));
        }
        rest = &rest[n..];
    }
    Ok(())
}
