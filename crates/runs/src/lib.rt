// The lines of a commit's file as the longest runs of one origin: set by the
// commit, or kept from the parent, where they then follow each other too.

#![tactic(auto)]

pub mod count;
pub mod part;
pub mod row;
pub mod rows;
#[cfg(test)]
mod tests;
