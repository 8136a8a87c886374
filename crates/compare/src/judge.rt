ghost use Rattle.std.specs.Prelude.{◌≡◌, Decides};
ghost use Rattle.compare.specs.Verdicts.{Says};

use crate::case::Case;
use hunk::row::HunkRow;
use hunk::suspect::Suspect;
use pieces::fault::ProcessFault;
use pieces::process::process_changes;
use std::alloc::{AllocError, Global};

// How many rows a case may fill.
const TABLE: usize = 256;

// What became of a case.
#[derive(Drop)]
pub enum Verdict {
    Agrees,
    // These rows were written.
    Differs(Vec<HunkRow>),
    Refused(ProcessFault),
}

// Whether both have the same suspects.
fn same_suspects(these: &[Suspect; 8], those: &[Suspect; 8]) -> bool
    ensures { Decides result (these.now ≡ those.now) }
{
    these == those
}

// Whether the rows are equal, what stands behind their suspects too. (By its parts, and not by
// `==`: so a wrong edit of one part is refused for that part.)
fn same_row(row: &HunkRow, other: &HunkRow) -> bool
    ensures { Decides result (row.now ≡ other.now) }
{
    row.range_in_blamed_file == other.range_in_blamed_file
        && same_suspects(&row.suspects, &other.suspects)
        && row.count == other.count
}

// Whether both have the same rows, one by one.
fn same_rows(these: &[HunkRow], those: &[HunkRow]) -> bool
    ensures { Decides result (these.now ≡ those.now) }
{
    if these.len() != those.len() {
        return false;
    }
    for (row, other) in these.iter().zip(those) {
        if !same_row(row, other) {
            return false;
        }
    }
    true
}

// What is to be said of the rows that were written.
pub fn verdict_on(written: Vec<HunkRow>, expected: &[HunkRow]) -> Verdict
    ensures { Says written.items expected.now result }
{
    if same_rows(written.as_slice(), expected) {
        Verdict::Agrees
    } else {
        Verdict::Differs(written)
    }
}

// Runs the case on a fresh table.
pub fn judge(heap: Global, case: &Case) -> Result<Verdict, AllocError> {
    let mut out = vec![in heap; HunkRow::default(); TABLE]?;
    match process_changes(
        &case.rows,
        &case.changes,
        case.suspect,
        case.parent,
        &mut out,
    ) {
        Ok(used) => {
            out.truncate(used);
            Ok(verdict_on(out, &case.expected))
        }
        Err(fault) => Ok(Verdict::Refused(fault)),
    }
}
