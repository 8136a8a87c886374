// Bytes of a text taken apart: its lines, and decimal numbers in it.

#![tactic(auto)]

pub mod decimal;
pub mod lines;
