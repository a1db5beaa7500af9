// The entry points for a C host, on slices and numbers, a module each; include/splitter.h declares them. Each answers 0
// for a result, else the refusal's number, and writes the place and the values where it is lent numbers for them.
#![tactic(auto)]

pub mod fold;
pub mod propose;
pub mod read;
pub mod run;
pub mod sizes;
pub mod split;
mod telling;
pub mod unfold;
pub mod write;
pub mod write_pddl;
