// The rounds of `timing`, as a static library for callers of the C convention.

#![tactic(auto)]

// The rounds of a table by its number, as `timing` counts them.
#[unsafe(no_mangle)]
pub extern "C" fn process_changes_rounds(table: u32, rounds: u32) -> u64 {
    timing::rounds::process_changes_rounds(table, rounds)
}
