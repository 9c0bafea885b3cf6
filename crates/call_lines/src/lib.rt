// The product's calls, one at a time, each with the lines that tell of it; for programs whose lines are kept.

#![tactic(auto)]

pub mod packets;
pub mod run;
pub mod show;
pub mod states;
