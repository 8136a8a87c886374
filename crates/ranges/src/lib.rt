// Asked ranges of lines: the whole file, or ranges that are kept in order and a
// line or more apart.

#![tactic(auto)]

mod adding;
pub mod blame_ranges;
pub mod clipped;
mod clipping;
pub mod fault;
mod held;
mod making;
mod merging;
pub mod one_based;
mod reading;
mod rows;
#[cfg(test)]
mod tests;
