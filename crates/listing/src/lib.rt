// The text of recorded change lists, read.

#![tactic(auto)]

pub mod line;
pub mod read;
