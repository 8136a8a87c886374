ghost use Rattle.std.specs.Prelude.{◌≡◌, map, reverse, IfOk, if◌then◌else◌, Some, None, MatchResult};
ghost use Rattle.std.specs.Option.{option_map};
ghost use Rattle.change.specs.Lists.{old_lines};
ghost use Rattle.runs.specs.Rows.{row_of, place_of, goes_on, Answered, ByLine};
ghost use Rattle.runs.specs.Steps.{joined, put, Meets, stretch_of};

use crate::row::{Origin, Row};
use change::change::Change;
use change::line_range::LineRange;
use change::list::{BadList, check_list};
use change::unmade::Unmade;
use std::alloc::Global;

// Whether lines of this origin, right behind the row, go on from it.
fn goes_on(row: Row, origin: Origin) -> bool
    ensures { result ≡ goes_on (row_of row) (place_of origin) }
{
    match (row.origin, origin) {
        (Origin::Set, Origin::Set) => true,
        (Origin::Kept(from), Origin::Kept(to)) => from <= to && to - from == row.lines.len(),
        _ => false,
    }
}

// Both rows as one, if the second goes on from the first, behind which it stands.
fn join(first: Row, second: Row) -> Option<Row>
    requires { (row_of first).end ≡ (row_of second).start }
    ensures { option_map row_of result ≡ (if goes_on (row_of first) (place_of second.origin) then Some (joined (row_of first) (row_of second)) else None) }
{
    if goes_on(first, second.origin) {
        let lines = LineRange::new(first.lines.start(), second.lines.end())?;
        Some(Row {
            lines,
            origin: first.origin,
        })
    } else {
        None
    }
}

// Puts a row behind the rows: into the last, if it goes on from that, or as one of its own.
fn append(rows: &mut Vec<Row>, row: Row) -> Result<(), Unmade<BadList>>
    requires { Meets (row_of row).start (reverse (map row_of rows.old.items)) }
    ensures { MatchResult result
        (λ _. reverse (map row_of rows.new.items) ≡ put (row_of row) (reverse (map row_of rows.old.items)))
        (λ e. e ≡ Unmade.OutOfMemory) }
{
    if let Some(last) = rows.last_mut() {
        if let Some(joined) = join(*last, row) {
            *last = joined;
            return Ok(());
        }
    }
    rows.push(row)?;
    Ok(())
}

// The lines of one change as a row, if it has any; the parent has `old` lines before them.
fn stretch(change: Change, old: u32) -> Option<Row>
    ensures { option_map row_of result ≡ stretch_of old change }
{
    let (range, origin) = match change {
        Change::Unchanged(range) => (range, Origin::Kept(old)),
        Change::AddedOrReplaced(range, _) => (range, Origin::Set),
        Change::Deleted(_, _) => return None,
    };
    let lines = LineRange::new(range.start, range.end)?;
    Some(Row { lines, origin })
}

// How many lines of the parent the change passes.
fn old_lines(change: Change) -> u32
    ensures { result ≡ old_lines change }
{
    match change {
        Change::Unchanged(range) => range.len(),
        Change::AddedOrReplaced(_, deleted) | Change::Deleted(_, deleted) => deleted,
    }
}

// The lines of the list's file as rows, in order, or why there are none.
pub fn rows(heap: Global, changes: &[Change]) -> Result<Vec<Row>, Unmade<BadList>>
    ensures is { Answered changes.now result }
    ensures covers { IfOk result (ByLine changes.now) }
{
    check_list(changes)?;
    let mut rows = Vec::new(heap);
    let mut old = 0;
    for change in changes {
        if let Some(row) = stretch(*change, old) {
            append(&mut rows, row)?;
        }
        old += old_lines(*change);
    }
    Ok(rows)
}
