ghost use Rattle.std.specs.Prelude.{◌≡◌, Some};
ghost use Rattle.hunk.specs.Rows.{piece_of, row_piece, row_of, read_row};

use crate::table::TableRow;
use change::span::Span;
use hunk::hunk::UnblamedHunk;
use hunk::row::HunkRow;
use hunk::source::Source;

// A plain row is written with zeros behind its suspects.
impl TableRow for HunkRow {
    ghost means = { row_piece };

    ghost exact = { λ r. r ≡ row_of (row_piece r) };

    ghost reads = { read_row };

    fn written(hunk: UnblamedHunk) -> HunkRow {
        HunkRow::from(hunk)
    }

    fn read(&self) -> Option<UnblamedHunk> {
        self.hunk()
    }

    fn is_hunk(&self) -> bool {
        HunkRow::is_hunk(self)
    }

    fn range_of(&self, source: Source) -> Option<Span> {
        HunkRow::range_of(self, source)
    }

    fn renamed(&self, from: Source, to: Source, range: Span) -> HunkRow {
        HunkRow::renamed(*self, from, to, range)
    }
}

// A hunk is a row of a table of hunks. (The last three have bodies of their own: by `read` a
// hunk is copied each time, and a table of 256 took half as long again.)
impl TableRow for UnblamedHunk {
    ghost means = { piece_of };

    ghost exact = { λ _. Unit {0} };

    ghost reads = { λ h. Some (piece_of h) };

    fn written(hunk: UnblamedHunk) -> UnblamedHunk {
        hunk
    }

    fn read(&self) -> Option<UnblamedHunk> {
        Some(*self)
    }

    fn is_hunk(&self) -> bool {
        true
    }

    fn range_of(&self, source: Source) -> Option<Span> {
        self.get_range(source)
    }

    fn renamed(&self, from: Source, to: Source, range: Span) -> UnblamedHunk {
        self.passed_blame(from, to, range.start).unwrap_or(*self)
    }
}
