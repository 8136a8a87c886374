ghost use Rattle.std.specs.Prelude.{◌≡◌, ◌+◌, ◌^◌, ◌<◌, [], ◌∷◌, map, length, nat_le};
ghost use Rattle.pieces.specs.Pieces.{cuts};
ghost use Rattle.pieces.specs.Comparisons.{pieces_by};
ghost use Rattle.pieces.specs.Process.{hunks_of};
ghost use Rattle.pieces.specs.Counts.{inside_from, counted_at};

use crate::comparison::Comparison;
use crate::table::TableRow;
use change::change::Change;
use change::span::Span;
use change::valid::ValidList;

// The last line at which the range was cut, its first line before any cut, and
// how many pieces there are so far.
#[derive(Clone, Copy)]
struct Counted {
    last: u32,
    count: usize,
}

impl Counted {
    // One cut, which counts where it is past the last one and before the end.
    fn pass(self, end: u32, cut: u32) -> Counted
        requires { self.count < 2 ^ 63 }
        ensures { result ≡ counted_at self end cut }
    {
        if self.last < cut && cut < end {
            Counted {
                last: cut,
                count: self.count + 1,
            }
        } else {
            self
        }
    }
}

// How many pieces the lines of the range make.
fn count_pieces(list: ValidList, range: Span) -> usize
    ensures { result ≡ 1 + inside_from range.start range.end (cuts list.entry.changes.now) }
{
    let mut so_far = Counted {
        last: range.start,
        count: 1,
    };
    for change in list.changes {
        match *change {
            Change::Unchanged(lines) => {
                // All that follows is past the range.
                if range.end <= lines.end {
                    return so_far.count;
                }
            }
            Change::AddedOrReplaced(lines, _) => {
                so_far = so_far
                    .pass(range.end, lines.start)
                    .pass(range.end, lines.end);
            }
            Change::Deleted(line, _) => so_far = so_far.pass(range.end, line),
        }
    }
    so_far.count
}

impl Comparison<'_> {
    // How many pieces the row makes; none if it is no hunk.
    fn count_row<R: TableRow>(&self, row: &R) -> usize
        ensures { result ≡ length (pieces_by self.now (hunks_of (R.TableRow.reads row.now ∷ []))) }
    {
        if !row.is_hunk() {
            return 0;
        }
        match row.range_of(self.suspect) {
            Some(range) => count_pieces(self.list, range),
            None => 1,
        }
    }

    // Whether all pieces of the rows have room in so many rows.
    pub(crate) fn pieces_fit<R: TableRow>(&self, rows: &[R], room: usize) -> bool
        ensures { result ≡ nat_le (length (pieces_by self.now (hunks_of (map R.TableRow.reads rows.now)))) room }
    {
        let mut left = room;
        for row in rows {
            let count = self.count_row(row);
            if count > left {
                return false;
            }
            left -= count;
        }
        true
    }
}
