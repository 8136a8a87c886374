ghost use Rattle.std.specs.Prelude.{◌≡◌};
ghost use Rattle.runs.specs.Counts.{count_in, count_of};

use change::change::Change;
use change::list::BadList;
use change::valid::ValidList;

// How many lines of its file a commit set, and how many it kept.
#[derive(Clone, Copy, Debug, PartialEq, Eq, Default)]
pub struct LineCount {
    pub set: u32,
    pub kept: u32,
}

// The lines of a valid list counted.
pub fn count_valid(list: ValidList) -> LineCount
    ensures { result ≡ count_of list.entry.changes.now }
{
    let mut count = LineCount::default();
    for change in list.changes {
        match *change {
            Change::Unchanged(range) => count.kept += range.len(),
            Change::AddedOrReplaced(range, _) => count.set += range.len(),
            Change::Deleted(_, _) => {}
        }
    }
    count
}

// The lines of a list counted, or its first bad position.
pub fn count_lines(changes: &[Change]) -> Result<LineCount, BadList>
    ensures { result ≡ count_in changes.now }
{
    let list = ValidList::new(changes)?;
    Ok(count_valid(list))
}
