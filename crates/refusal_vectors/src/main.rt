// The product's refusals, and what they answer, in lines. The file stdout beside src/ has what they should be,
// worked out from document 01 by another implementation of it (host/vectors).

#![tactic(auto)]

mod forged;
mod half_built;
mod refusals;
mod table_bytes;

use call_lines::show::Lines;
use std::io;

fn main(rt: HostRuntime) -> io::Result<()> {
    let mut lines = Lines::new(rt.stdout());
    refusals::openings(&mut lines);
    refusals::packets(&mut lines);
    refusals::clocks(&mut lines);
    forged::times(&mut lines);
    forged::lists(&mut lines);
    forged::syncs(&mut lines);
    half_built::headers(&mut lines);
    half_built::every_room(&mut lines);
    table_bytes::every_byte(&mut lines);
    lines.end()
}
