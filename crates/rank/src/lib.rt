// Ranked elements in tables with a limit: an element is put before the first that
// ranks after it, and neighbours that join are made one.

#![tactic(auto)]

pub mod coalescing;
pub mod entries;
pub mod entry;
pub mod insertion;
pub mod joining;
pub mod queued;
pub mod ranges;
pub mod ranking;
pub mod rows;
pub mod table;
pub mod touching;
