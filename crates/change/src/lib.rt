// Recorded change lists: which lines of a file a commit kept, added or deleted
// against one parent. The check of a list says how many lines it has on either
// side, or where it first breaks a rule; a valid list says where in the parent
// each line of the file stands, if the commit kept it.

#![tactic(auto)]

pub mod change;
pub mod line_range;
pub mod list;
pub mod place;
pub mod refusal;
pub mod span;
#[cfg(test)]
mod tests;
pub mod unmade;
pub mod valid;
