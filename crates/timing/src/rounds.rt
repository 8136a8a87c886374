use crate::layout::{Layout, PARENT, ROWS, SUSPECT};
use change::change::Change;
use hunk::row::HunkRow;
use pieces::process::process_changes;

// One more number in the digest.
fn mixed(digest: u64, number: u64) -> u64 {
    digest.wrapping_mul(31).wrapping_add(number)
}

// One more piece in it: its lines, how many suspects it has, and the first of them.
fn mixed_row(digest: u64, row: &HunkRow) -> u64 {
    let asked = row.range_in_blamed_file;
    let suspect = row.suspects[0];
    [
        u64::from(asked.start),
        u64::from(asked.end),
        row.count as u64,
        u64::from(suspect.source.commit),
        u64::from(suspect.range.start),
        u64::from(suspect.range.end),
    ]
    .into_iter()
    .fold(digest, mixed)
}

// Cuts the hunks once, and says how many pieces there are; none if it is refused.
fn round(rows: &[HunkRow], changes: &[Change], out: &mut [HunkRow]) -> usize {
    process_changes(rows, changes, SUSPECT, PARENT, out).unwrap_or(0)
}

// Cuts the hunks so many times. The answer is how many pieces there were in all,
// and to it is added the digest of those of the last time.
fn run(rows: &[HunkRow], changes: &[Change], out: &mut [HunkRow], rounds: u32) -> u64 {
    let mut used = 0;
    let mut sum: u64 = 0;
    for _ in 0..rounds {
        used = round(rows, changes, out);
        sum = sum.wrapping_add(used as u64);
    }
    let digest = out.iter().take(used).fold(0, mixed_row);
    sum.wrapping_add(digest)
}

// Makes the table, and then cuts its hunks.
fn make_and_run(layout: Layout, rounds: u32) -> u64 {
    let rows = layout.rows();
    let changes = layout.changes();
    let mut out = [HunkRow::default(); ROWS];
    run(
        &rows[..layout.row_count()],
        &changes[..layout.change_count()],
        &mut out,
        rounds,
    )
}

// The same of a table by its number, 0, 1 or 2; of any other number, 0.
pub fn process_changes_rounds(table: u32, rounds: u32) -> u64 {
    match Layout::try_from(table) {
        Ok(layout) => make_and_run(layout, rounds),
        Err(_) => 0,
    }
}
