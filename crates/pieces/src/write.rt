ghost use Rattle.std.specs.Prelude.{◌≡◌, ◌≤◌, true, false, [], ◌∷◌, map, length, IfSome, Some, None};
ghost use Rattle.change.specs.Lists.{new_total};
ghost use Rattle.hunk.specs.Hunks.{Piece, has, passed};
ghost use Rattle.hunk.specs.Rows.{piece_of};
ghost use Rattle.pieces.specs.Comparisons.{pieces_by};
ghost use Rattle.pieces.specs.Process.{Inside, hunks_of, outside, first_outside};
ghost use Rattle.pieces.specs.Tables.{Filled, Renames};
ghost use Rattle.pieces.specs.Walkers.{head_of, tail_of};

use crate::comparison::Comparison;
use crate::offset::Offset;
use crate::skip::{catch_up, skip};
use crate::table::{TableRow, requeue};
use crate::walk::process_change;
use change::change::Change;
use change::span::Span;
use hunk::hunk::UnblamedHunk;

// The change at hand, if one is left, and those behind it.
fn next_change(changes: &[Change]) -> (Option<Change>, &[Change])
    ensures { (result.0 ≡ head_of changes.now) × (result.1.now ≡ tail_of changes.now) }
{
    match changes {
        [change, rest @ ..] => (Some(*change), rest),
        [] => (None, changes),
    }
}

// Each writer takes the rows that are left, and says how many it filled. (A struct
// of these rows would be no plainer: they are borrowed anew at each call, and how much
// room a call needs depends on the hunks that it writes.)
impl Comparison<'_> {
    // Writes the pieces of one hunk into the first rows of the table, and says how many.
    fn write_pieces<R: TableRow>(&self, hunk: UnblamedHunk, out: &mut [R]) -> usize
        requires inside { Inside self.now.suspect (new_total self.now.list.changes.now) (piece_of hunk) }
        requires room { length (pieces_by self.now (piece_of hunk ∷ [])) ≤ length out.old }
        ensures count { result ≡ length (pieces_by self.now (piece_of hunk ∷ [])) }
        ensures rows { Filled R.TableRow.means R.TableRow.exact out.old (pieces_by self.now (piece_of hunk ∷ [])) out.new }
    {
        let mut offset = Offset::Added(0);
        let mut at_hand = Some(hunk);
        let mut left = self.list.changes;
        let mut used = 0;
        while let Some(hunk) = at_hand {
            // What leaves the hunk as it is only moves the offset.
            let caught = catch_up(&mut offset, left, &hunk, self.suspect);
            // While the hunk is at hand, the change before it is used up.
            let (change, rest) = next_change(caught);
            let step = process_change(&mut offset, self.suspect, self.parent, Some(hunk), change);
            used = requeue(out, used, step.requeued);
            at_hand = step.hunk;
            left = rest;
        }
        used
    }

    // The range in the parent of the lines of a hunk that the list keeps side by side,
    // where the hunk does not name the parent yet: no change cuts it.
    fn kept_whole<R: TableRow>(&self, row: &R) -> Option<Span>
        requires known { has (R.TableRow.reads row.now) ≡ true }
        requires inside { outside self.now.suspect (new_total self.now.list.changes.now) (R.TableRow.reads row.now) ≡ false }
        ensures { IfSome result (λ x. (h : Piece) → R.TableRow.reads row.now ≡ Some h
            → Renames self.now.suspect self.now.parent x h × (pieces_by self.now (h ∷ []) ≡ passed self.now.suspect self.now.parent x.start h ∷ [])) }
    {
        let range = row.range_of(self.suspect)?;
        let None = row.range_of(self.parent) else {
            return None;
        };
        let mut offset = Offset::Added(0);
        match skip(&mut offset, self.list.changes, range).first() {
            Some(Change::Unchanged(unchanged)) if range.end < unchanged.end => {
                offset.shifted_range(range)
            }
            _ => None,
        }
    }

    // Writes the pieces of one row into the first rows of the table, and says how many.
    fn write_row<R: TableRow>(&self, row: &R, out: &mut [R]) -> usize
        requires inside { outside self.now.suspect (new_total self.now.list.changes.now) (R.TableRow.reads row.now) ≡ false }
        requires room { length (pieces_by self.now (hunks_of (R.TableRow.reads row.now ∷ []))) ≤ length out.old }
        ensures count { result ≡ length (pieces_by self.now (hunks_of (R.TableRow.reads row.now ∷ []))) }
        ensures rows { Filled R.TableRow.means R.TableRow.exact out.old (pieces_by self.now (hunks_of (R.TableRow.reads row.now ∷ []))) out.new }
    {
        if !row.is_hunk() {
            return 0;
        }
        if let Some(range) = self.kept_whole(row) {
            out[0] = row.renamed(self.suspect, self.parent, range);
            return 1;
        }
        match row.read() {
            Some(hunk) => self.write_pieces(hunk, out),
            None => 0,
        }
    }

    // Writes the pieces of all rows, those of each right behind those of the row
    // before, and says how many.
    pub(crate) fn write_all<R: TableRow>(&self, rows: &[R], out: &mut [R]) -> usize
        requires inside { first_outside self.now.suspect (new_total self.now.list.changes.now) 0 (map R.TableRow.reads rows.now) ≡ None }
        requires room { length (pieces_by self.now (hunks_of (map R.TableRow.reads rows.now))) ≤ length out.old }
        ensures count { result ≡ length (pieces_by self.now (hunks_of (map R.TableRow.reads rows.now))) }
        ensures rows { Filled R.TableRow.means R.TableRow.exact out.old (pieces_by self.now (hunks_of (map R.TableRow.reads rows.now))) out.new }
    {
        let mut used = 0;
        for row in rows {
            used += self.write_row(row, &mut out[used..]);
        }
        used
    }
}
