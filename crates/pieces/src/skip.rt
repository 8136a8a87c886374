ghost use Rattle.std.specs.Prelude.{◌+◌, ◌<◌, ◌≤◌};
ghost use Rattle.pieces.specs.Offsets.{size_of};
ghost use Rattle.hunk.specs.Rows.{piece_of};
ghost use Rattle.pieces.specs.Skips.{GoesOn, Skipped, Caught};
ghost use Rattle.pieces.specs.Walkers.{weights};

use crate::offset::Offset;
use change::change::Change;
use change::span::Span;
use hunk::hunk::UnblamedHunk;
use hunk::source::Source;

// Passes the changes that leave a hunk with this range as it is, and moves only
// the offset. Answers the changes from the first on that does more.
pub(crate) fn skip<'a>(offset: &mut Offset, changes: &'a [Change], range: Span) -> &'a [Change]
    requires follows { GoesOn changes.now }
    requires lines { range.start < range.end }
    requires fits { size_of offset.old + weights changes.now ≤ 33554430 }
    ensures { Skipped range changes.now result.now offset.old offset.new }
{
    let mut left = changes;
    while let [change, rest @ ..] = left {
        match *change {
            Change::Unchanged(unchanged) => {
                if unchanged.end > range.end {
                    return left;
                }
            }
            Change::AddedOrReplaced(added, deleted) => {
                if added.end > range.start {
                    return left;
                }
                offset.pass_added(added, deleted);
            }
            Change::Deleted(line, deleted) => {
                if line > range.start {
                    return left;
                }
                offset.sub_assign(deleted);
            }
        }
        left = rest;
    }
    left
}

// The same for the hunk at hand. One that does not name the suspect passes none.
pub(crate) fn catch_up<'a>(
    offset: &mut Offset,
    changes: &'a [Change],
    hunk: &UnblamedHunk,
    suspect: Source,
) -> &'a [Change]
    requires follows { GoesOn changes.now }
    requires fits { size_of offset.old + weights changes.now ≤ 33554430 }
    ensures { Caught suspect (piece_of hunk.now) changes.now result.now offset.old offset.new }
{
    match hunk.get_range(suspect) {
        Some(range) => skip(offset, changes, range),
        None => changes,
    }
}
