ghost use Rattle.std.specs.Prelude.{◌≡◌, ℕ, ◌+◌, ◌<◌, ◌≤◌, List, [], ◌∷◌, ◌++◌, length, Some, Option};
ghost use Rattle.std.specs.Option.{option_map};
ghost use Rattle.hunk.specs.Hunks.{Piece, has, range_in, passed};
ghost use Rattle.hunk.specs.Rows.{piece_of};
ghost use Rattle.pieces.specs.Tables.{Filled, Renames};
ghost use Rattle.pieces.specs.Walkers.{pieces_of};

use crate::walk::Requeued;
use change::span::Span;
use hunk::hunk::UnblamedHunk;
use hunk::source::Source;

// A row of a table of hunks: it can be read as a hunk, and written of one. `From`
// would be no plainer than `written`: a bound tells what it gives by a law alone.
pub trait TableRow: Copy {
    ghost means: { Self → Piece };

    ghost exact: { Self → Type 0 };

    ghost reads: { Self → Option Piece };

    fn written(hunk: UnblamedHunk) -> Self
        ensures means { means result ≡ piece_of hunk }
        ensures exact { exact result };

    fn read(&self) -> Option<UnblamedHunk>
        ensures { option_map piece_of result ≡ reads self.now };

    // Whether it can be read as a hunk.
    fn is_hunk(&self) -> bool
        ensures { result ≡ has (reads self.now) }
    {
        self.read().is_some()
    }

    // The range of the hunk in the source, if it names it. A hunk has a line.
    fn range_of(&self, source: Source) -> Option<Span>
        ensures { (h : Piece) → reads self.now ≡ Some h → (result ≡ range_in source h) × (0 < h.size) }
    {
        self.read()?.get_range(source)
    }

    // The row of the hunk with `to`, at this range, in the place of `from`.
    fn renamed(&self, from: Source, to: Source, range: Span) -> Self
        ensures { (h : Piece) → reads self.now ≡ Some h → Renames from to range h → (means result ≡ passed from to range.start h) × exact result }
    {
        let passed = self
            .read()
            .and_then(|hunk| hunk.passed_blame(from, to, range.start));
        match passed {
            Some(hunk) => Self::written(hunk),
            None => *self,
        }
    }
}

// Writes the hunk into the row behind those in use. The table is the caller's and
// is filled without heap, so how many rows are in use is told beside it.
fn put<R: TableRow>(out: &mut [R], used: usize, hunk: UnblamedHunk)
    requires { used < length out.old }
    ensures { (entry : List R) (ps : List Piece) → used ≡ length ps → Filled R.TableRow.means R.TableRow.exact entry ps out.old
        → Filled R.TableRow.means R.TableRow.exact entry (ps ++ piece_of hunk ∷ []) out.new }
{
    out[used] = R::written(hunk);
}

// Writes what a step is done with, and says how many rows are in use then.
pub(crate) fn requeue<R: TableRow>(out: &mut [R], used: usize, requeued: Requeued) -> usize
    requires { used + length (pieces_of requeued) ≤ length out.old }
    ensures used { result ≡ used + length (pieces_of requeued) }
    ensures rows { (entry : List R) (ps : List Piece) → used ≡ length ps → Filled R.TableRow.means R.TableRow.exact entry ps out.old
        → Filled R.TableRow.means R.TableRow.exact entry (ps ++ pieces_of requeued) out.new }
{
    match requeued {
        Requeued::Nothing => used,
        Requeued::One(hunk) => {
            put(out, used, hunk);
            used + 1
        }
        Requeued::Two(first, second) => {
            put(out, used, first);
            put(out, used + 1, second);
            used + 2
        }
    }
}
