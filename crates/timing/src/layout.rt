ghost use Rattle.std.specs.Prelude.{◌≡◌, ◌<◌, ◌≤◌, MatchResult};
ghost use Rattle.timing.specs.Layouts.{number_of};

use change::change::Change;
use change::span::Span;
use hunk::row::HunkRow;
use hunk::source::Source;
use hunk::suspect::Suspect;
use std::array;

// The commit that each hunk names, and its parent.
pub const SUSPECT: Source = Source { commit: 1 };

pub const PARENT: Source = Source { commit: 2 };

// How many rows and changes there is room for.
pub const ROWS: usize = 256;

pub const CHANGES: usize = 512;

// Which table. Each makes 256 pieces. (Three tables told apart by a match in each method:
// closures that make them would be no plainer, with the three of them apart.)
#[derive(Clone, Copy)]
pub enum Layout {
    // 256 hunks and 512 changes. Lines in groups of 12, 8 unchanged and 4 that
    // replace 2; hunk i is the unchanged part of group i if i is even, else the
    // replaced one, so that nothing is cut.
    Whole,
    // 1 hunk and 512 changes. Lines in groups of 12: 4 that replace 2, then 3
    // deleted, then 4 and 4 unchanged. Each group is cut into two pieces.
    Cut,
    // 256 hunks of 4 lines, and 1 change: all lines are unchanged.
    Kept,
}

// No table has this number.
#[derive(Clone, Copy, Debug, PartialEq, Eq)]
pub struct NoLayout(pub u32);

impl TryFrom<u32> for Layout {
    type Error = NoLayout;

    ghost try_from_gives = { λ n r. MatchResult r (λ layout. number_of layout ≡ n) (λ e. (e.0 ≡ n) × (2 < n)) };

    fn try_from(number: u32) -> Result<Layout, NoLayout> {
        match number {
            0 => Ok(Layout::Whole),
            1 => Ok(Layout::Cut),
            2 => Ok(Layout::Kept),
            _ => Err(NoLayout(number)),
        }
    }
}

// (Two numbers here and below: a `Span` would have to be written out at each call. A test
// of `change` makes such a change too, and cannot call this.)
fn unchanged(start: u32, end: u32) -> Change {
    Change::Unchanged(Span { start, end })
}

fn replaced(start: u32, end: u32) -> Change {
    Change::AddedOrReplaced(Span { start, end }, 2)
}

// The hunk of these lines, which stand at the same place in the commit.
pub fn row(start: u32, end: u32) -> HunkRow {
    let range = Span { start, end };
    HunkRow {
        range_in_blamed_file: range,
        suspects: [Suspect {
            source: SUSPECT,
            range,
        }; 8],
        count: 1,
    }
}

// The changes of group i of the first table.
fn whole_group(i: u32) -> [Change; 2]
    requires { i < 256 }
{
    let start = 12 * i;
    [unchanged(start, start + 8), replaced(start + 8, start + 12)]
}

// The changes of group i of the second table.
fn cut_group(i: u32) -> [Change; 4]
    requires { i < 128 }
{
    let start = 12 * i;
    [
        replaced(start, start + 4),
        Change::Deleted(start + 4, 3),
        unchanged(start + 4, start + 8),
        unchanged(start + 8, start + 12),
    ]
}

impl Layout {
    // Hunk i of the table.
    fn row(self, i: u32) -> HunkRow
        requires { i < 256 }
    {
        match self {
            Layout::Whole => {
                if i % 2 == 0 {
                    row(12 * i, 12 * i + 8)
                } else {
                    row(12 * i + 8, 12 * i + 12)
                }
            }
            Layout::Cut => row(0, 12 * 128),
            Layout::Kept => row(4 * i, 4 * i + 4),
        }
    }

    // Change i of the table.
    fn change(self, i: u32) -> Change
        requires { i < 512 }
    {
        match self {
            Layout::Whole => whole_group(i / 2)[(i % 2) as usize],
            Layout::Cut => cut_group(i / 4)[(i % 4) as usize],
            Layout::Kept => unchanged(0, 4 * 256),
        }
    }

    // How many hunks the table has.
    pub fn row_count(self) -> usize
        ensures { result ≤ 256 }
    {
        match self {
            Layout::Whole | Layout::Kept => 256,
            Layout::Cut => 1,
        }
    }

    // How many changes it has.
    pub fn change_count(self) -> usize
        ensures { result ≤ 512 }
    {
        match self {
            Layout::Whole | Layout::Cut => 512,
            Layout::Kept => 1,
        }
    }

    // The hunks of the table; only the first `row_count` are its own. (An array and a count:
    // the library's vector of fixed room needs a default of its elements, which a change has
    // not, and rows are held as changes are.)
    pub fn rows(self) -> [HunkRow; ROWS] {
        array::from_fn(|i| self.row(i as u32))
    }

    // The changes of the table; only the first `change_count` are its own.
    pub fn changes(self) -> [Change; CHANGES] {
        array::from_fn(|i| self.change(i as u32))
    }
}
