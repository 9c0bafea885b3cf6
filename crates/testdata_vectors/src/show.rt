// What reading and writing give, in lines.
use std::io;
use std::io::Print;
use testdata::{Cursor, Descriptor, Fields, Fixed, Head, Part, Refusal, Section, Syntax};

pub fn text(rt: &impl Print, s: &str) -> io::Result<()> {
    print!(rt; "{s}")
}

// The bytes, two digits each.
pub fn hex(rt: &impl Print, s: &[u8]) -> io::Result<()> {
    text(rt, " ")?;
    for b in s {
        print!(rt; "{:02x}", *b)?;
    }
    Ok(())
}

fn part_of(rt: &impl Print, name: &str, p: Part) -> io::Result<()> {
    print!(rt; "{name} {} {}", p.at, p.len)
}

fn head_of(rt: &impl Print, h: Head) -> io::Result<()> {
    print!(rt; " {} {} {}", h.table_id, h.priority, h.reserved)
}

fn syntax_of(rt: &impl Print, x: Syntax) -> io::Result<()> {
    print!(rt;
        " {} {} {} {}",
        x.user_defined, x.extension, x.reserved, x.version
    )?;
    print!(rt;
        " {} {} {} {}",
        x.current_next, x.number, x.last, x.reserved_loop
    )
}

fn fields_of(rt: &impl Print, f: Fields) -> io::Result<()> {
    match f {
        Fields::Plain(h) => {
            text(rt, " plain")?;
            head_of(rt, h)
        }
        Fields::Generic(h, x) => {
            text(rt, " generic")?;
            head_of(rt, h)?;
            syntax_of(rt, x)
        }
    }
}

fn fixed_of(rt: &impl Print, d: Fixed) -> io::Result<()> {
    match d {
        Fixed::ElementaryId { id_type, pid } => { print!(rt; "  elementary {id_type} {pid}\n") }
        Fixed::Gps {
            north_south,
            latitude,
            east_west,
            longitude,
            elevation,
        } => { print!(rt; "  gps {north_south} {latitude} {east_west} {longitude} {elevation}\n") }
        Fixed::ReducedPcr { base } => print!(rt; "  pcr {base}\n"),
        Fixed::Program {
            number,
            reserved,
            pid,
        } => print!(rt; "  program {number} {reserved} {pid}\n"),
    }
}

// The number of a refusal, behind what was refused, and the end of the line.
pub fn refused_of(rt: &impl Print, what: &str, e: Refusal) -> io::Result<()> {
    print!(rt; "{what} {}\n", u8::from(e))
}

// The descriptor at a cursor, in a line; the cursor behind it, none at the end and on a refusal.
fn descriptor_of(rt: &impl Print, s: &[u8], at: Cursor) -> io::Result<Option<Cursor>> {
    match testdata::descriptor_at(s, at) {
        Ok(Some(step)) => {
            match step.descriptor {
                Descriptor::Known(d) => fixed_of(rt, d)?,
                Descriptor::Other { tag, body } => {
                    print!(rt; "  tag {tag}")?;
                    part_of(rt, " at", body)?;
                    text(rt, "\n")?;
                }
            }
            Ok(Some(step.next))
        }
        Ok(None) => Ok(None),
        Err(e) => {
            refused_of(rt, "  refused", e)?;
            Ok(None)
        }
    }
}

// The descriptors from a cursor on, at most forty.
fn descriptors_of(rt: &impl Print, s: &[u8], c: Cursor) -> io::Result<()> {
    let mut at = c;
    for _ in 0..40usize {
        let Some(next) = descriptor_of(rt, s, at)? else {
            return Ok(());
        };
        at = next;
    }
    Ok(())
}

// Whether writing the fields, loop and data again gives the same bytes.
fn again(rt: &impl Print, s: &[u8], found: Section) -> io::Result<()> {
    let mut place = [0u8; 4096];
    let loop_bytes = testdata::bytes_of(s, found.descriptors);
    let data = testdata::bytes_of(s, found.data);
    match testdata::write(found.fields, loop_bytes, data, &mut place) {
        Ok(n) => {
            if place.get(..n) == Some(s) {
                text(rt, "  again\n")
            } else {
                text(rt, "  differs\n")
            }
        }
        Err(e) => refused_of(rt, "  not again", e),
    }
}

// What reading gives, its descriptors, and what writing that again gives.
pub fn show(rt: &impl Print, name: &str, s: &[u8]) -> io::Result<()> {
    print!(rt; "{name} {}", s.len())?;
    match testdata::read(s) {
        Ok(found) => {
            fields_of(rt, found.fields)?;
            part_of(rt, " loop", found.descriptors)?;
            part_of(rt, " data", found.data)?;
            text(rt, "\n")?;
            let Part { at, len } = found.descriptors;
            if (at <= 4096) & (len <= 4096) {
                descriptors_of(rt, s, Cursor { at, end: at + len })?;
            }
            again(rt, s, found)
        }
        Err(e) => refused_of(rt, " refused", e),
    }
}
