// The product's calls over kept packets, and what they answer, in lines. The file stdout beside src/ has what
// they should be, worked out from document 01 by another implementation of it (host/vectors).

#![tactic(auto)]

mod cuts;
mod streams;
mod tables;

use call_lines::show::Lines;
use std::io;

fn main(rt: HostRuntime) -> io::Result<()> {
    let mut lines = Lines::new(rt.stdout());
    streams::late_tables(&mut lines);
    streams::lost_sync(&mut lines);
    streams::counters(&mut lines);
    streams::adaptation(&mut lines);
    tables::list_and_programme(&mut lines);
    tables::scrambled(&mut lines);
    tables::damaged(&mut lines);
    tables::two_packets(&mut lines);
    cuts::cut_anywhere(&mut lines);
    lines.end()
}
