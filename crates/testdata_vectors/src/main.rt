// Test data sections of DVB A046, Annex B, written, read back and written again; the refusals at their
// boundaries. The file stdout beside src/ has what they should be, worked out from the tables.

#![tactic(auto)]

mod read_cases;
mod show;
mod write_cases;
mod writes;

use std::io;

fn main(rt: HostRuntime) -> io::Result<()> {
    write_cases::annex_b_written(&rt)?;
    write_cases::annex_b_2_written(&rt)?;
    read_cases::annex_b_2_printed(&rt)?;
    read_cases::annex_b_5_printed(&rt)?;
    read_cases::lengths(&rt)?;
    read_cases::loops(&rt)?;
    read_cases::sizes(&rt)?;
    read_cases::values(&rt)?;
    read_cases::every_length(&rt)?;
    read_cases::largest(&rt)?;
    write_cases::too_wide(&rt)?;
    write_cases::in_order(&rt)?;
    write_cases::longest(&rt)?;
    write_cases::fixed_first(&rt)?;
    write_cases::fixed_rest(&rt)?;
    write_cases::others(&rt)
}
