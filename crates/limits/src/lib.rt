// Hunks and their pieces at the limits: tests, in a crate of their own so that
// the crates that they try are proved once.

#![tactic(auto)]

#[cfg(test)]
mod cuts;
#[cfg(test)]
mod hunks;
