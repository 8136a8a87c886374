ghost use Rattle.std.specs.Prelude.{◌≡◌, map, Ok, Err, MatchResult};
ghost use Rattle.pieces.specs.Process.{judge_of, first_none, outside, first_outside};

use crate::fault::ListFault;
use crate::table::TableRow;
use change::change::Change;
use change::list::Totals;
use change::valid::ValidList;
use hunk::source::Source;

// The most changes of a list that is worked on.
pub const LIST_LIMIT: usize = 512;

// The list, if it may be worked on, or why not.
pub(crate) fn judged(changes: &[Change]) -> Result<ValidList<'_>, ListFault>
    ensures { MatchResult result
        (λ l. (l.changes.now ≡ changes.now) × (judge_of changes.now ≡ Ok l.totals))
        (λ e. judge_of changes.now ≡ Err e) }
{
    let list = ValidList::new(changes)?;
    if changes.len() <= LIST_LIMIT {
        Ok(list)
    } else {
        Err(ListFault::ListFull)
    }
}

// Both totals of a list that may be worked on, or why not.
pub fn judge_list(changes: &[Change]) -> Result<Totals, ListFault>
    ensures { result ≡ judge_of changes.now }
{
    let list = judged(changes)?;
    Ok(list.totals)
}

// The first row that is no hunk. (Tried: `position` with a closure, here and below; with it a
// table of 256 rows took 4 in 100 longer, which is slower than gix-blame.)
pub(crate) fn first_no_hunk<R: TableRow>(rows: &[R]) -> Option<usize>
    ensures { result ≡ first_none 0 (map R.TableRow.reads rows.now) }
{
    for (i, row) in rows.iter().enumerate() {
        if !row.is_hunk() {
            return Some(i);
        }
    }
    None
}

// Whether the row names the suspect past the end of its file.
fn is_outside<R: TableRow>(row: &R, suspect: Source, total: u32) -> bool
    ensures { result ≡ outside suspect total (R.TableRow.reads row.now) }
{
    if !row.is_hunk() {
        return false;
    }
    match row.range_of(suspect) {
        Some(range) => range.end > total,
        None => false,
    }
}

// The first such row.
pub(crate) fn first_outside<R: TableRow>(rows: &[R], suspect: Source, total: u32) -> Option<usize>
    ensures { result ≡ first_outside suspect total 0 (map R.TableRow.reads rows.now) }
{
    for (i, row) in rows.iter().enumerate() {
        if is_outside(row, suspect, total) {
            return Some(i);
        }
    }
    None
}
