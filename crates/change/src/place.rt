ghost use Rattle.std.specs.Prelude.{◌≡◌, IfOk};
ghost use Rattle.change.specs.Places.{walk, kept_in, Placed};

use crate::change::Change;
use crate::list::BadList;
use crate::valid::ValidList;

// The place in the parent of a line that the commit kept, or the list's first
// bad position.
pub fn kept(changes: &[Change], line: u32) -> Result<Option<u32>, BadList>
    ensures is { result ≡ kept_in changes.now line }
    ensures placed { IfOk result (Placed changes.now line) }
{
    let list = ValidList::new(changes)?;
    Ok(place(list, line))
}

// The walk along a valid list with a running offset: the lines added and deleted so far.
fn place(list: ValidList, line: u32) -> Option<u32>
    ensures { result ≡ walk 0 0 list.entry.changes.now line }
{
    let mut added = 0;
    let mut deleted = 0;
    for change in list.changes {
        match *change {
            Change::Unchanged(range) => {
                if line < range.end {
                    return Some(line - added + deleted);
                }
            }
            Change::AddedOrReplaced(range, count) => {
                if line < range.end {
                    return None;
                }
                added += range.len();
                deleted += count;
            }
            Change::Deleted(_, count) => deleted += count,
        }
    }
    None
}
