// What one change list does to hunks: each hunk that names the commit is cut
// into pieces, which stay with it or go to its parent.

#![tactic(auto)]

mod comparison;
pub mod count;
pub mod fault;
pub mod judge;
pub mod offset;
pub mod process;
pub mod rows;
mod skip;
pub mod table;
pub mod theorems;
pub mod walk;
pub mod write;
