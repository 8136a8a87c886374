// Hunks: lines of the asked file that are not credited yet, with the commits
// that may have set them, their suspects. A hunk is sound by its type; a row of
// a table is plain, and made a hunk by a check.

#![tactic(auto)]

pub mod fault;
pub mod hunk;
pub mod making;
pub mod passing;
pub mod reading;
pub mod row;
pub mod rows;
pub mod source;
pub mod split;
pub mod suspect;
mod suspects;
