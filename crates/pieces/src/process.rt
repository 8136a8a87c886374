ghost use Rattle.std.specs.Prelude.{◌≡◌, min, map, length};
ghost use Rattle.hunk.specs.Rows.{read_row};
ghost use Rattle.pieces.specs.Process.{process_of, table_of, count_of};
ghost use Rattle.pieces.specs.Answers.{Answered};

use crate::comparison::Comparison;
use crate::fault::ProcessFault;
use crate::judge::{first_no_hunk, first_outside, judged};
use crate::table::TableRow;
use change::change::Change;
use hunk::row::HunkRow;
use hunk::source::Source;

// The most pieces that one list makes of all hunks.
pub const HUNK_LIMIT: usize = 256;

// Cuts the hunks along the list of changes of `suspect` against `parent`, and
// writes the pieces into the table, at most `limit` of them; or refuses, and
// leaves the table as it was.
pub fn cut_hunks<R: TableRow>(
    rows: &[R],
    changes: &[Change],
    suspect: Source,
    parent: Source,
    limit: usize,
    out: &mut [R],
) -> Result<usize, ProcessFault>
    ensures { Answered R.TableRow.means R.TableRow.exact out.old out.new
        (process_of suspect parent changes.now (min limit (length out.old)) (map R.TableRow.reads rows.now)) result }
{
    if let Some(row) = first_no_hunk(rows) {
        return Err(ProcessFault::EmptyRange(row));
    }
    if suspect == parent {
        return Err(ProcessFault::SameCommit);
    }
    let list = judged(changes)?;
    if let Some(row) = first_outside(rows, suspect, list.totals.new) {
        return Err(ProcessFault::HunkOutside(row));
    }
    let comparison = Comparison {
        list,
        suspect,
        parent,
    };
    if !comparison.pieces_fit(rows, limit.min(out.len())) {
        return Err(ProcessFault::HunksFull);
    }
    Ok(comparison.write_all(rows, out))
}

// The same on plain rows, for up to 256 pieces. The table is filled from its
// first row; what stands behind the pieces stays.
pub fn process_changes(
    rows: &[HunkRow],
    changes: &[Change],
    suspect: Source,
    parent: Source,
    out: &mut [HunkRow],
) -> Result<usize, ProcessFault>
    ensures answer { result ≡ count_of (process_of suspect parent changes.now (min 256 (length out.old)) (map read_row rows.now)) }
    ensures table { out.new ≡ table_of out.old (process_of suspect parent changes.now (min 256 (length out.old)) (map read_row rows.now)) }
{
    cut_hunks(rows, changes, suspect, parent, HUNK_LIMIT, out)
}
