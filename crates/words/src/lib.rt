// Words of 16 bits, and sets of bits: what every crate above reads, compares and writes them by. No task in it.
#![tactic(auto)]

pub mod putting;
pub mod runs;
pub mod sets;
