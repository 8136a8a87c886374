// Three tables on which the cutting of hunks is timed. What calls this holds the
// clock.

#![tactic(auto)]

pub mod layout;
pub mod rounds;
