ghost use Rattle.std.specs.Prelude.{◌≡◌, true, map};
ghost use Rattle.std.specs.Option.{option_map};
ghost use Rattle.hunk.specs.Hunks.{span_of, rename, with_suspects};
ghost use Rattle.std.specs.List.{list_all};
ghost use Rattle.hunk.specs.Rows.{piece_of, fits, different, differs, is_of, is_hunk, row_piece, in_use, range_at, renamed_row, read_row, row_of};

use crate::hunk::UnblamedHunk;
use crate::row::HunkRow;
use crate::source::Source;
use crate::suspect::Suspect;
use crate::suspects::{front, range_at};
use change::list::FILE_LIMIT;
use change::span::Span;

// Whether the range has this many lines, within the file limit.
fn has_lines(range: Span, size: u32) -> bool
    ensures { result ≡ is_of size range }
{
    range.end <= FILE_LIMIT && range.start <= range.end && range.len() == size
}

// Whether each suspect's range is such a one. (Tried: `all` with a closure here and below,
// and `find` for a range; rows are judged four times, and with the chains a table of 256
// rows took 1.3 times what gix-blame takes. With the loops it takes no longer than that.)
fn all_fit(suspects: &[Suspect], size: u32) -> bool
    ensures { result ≡ list_all (fits size) suspects.now }
{
    for suspect in suspects {
        if !has_lines(suspect.range, size) {
            return false;
        }
    }
    true
}

// Whether none of the suspects names it.
fn none_names(suspects: &[Suspect], source: Source) -> bool
    ensures { result ≡ list_all (differs source) suspects.now }
{
    for suspect in suspects {
        if suspect.source == source {
            return false;
        }
    }
    true
}

// Whether no two suspects name the same.
fn all_differ(suspects: &[Suspect]) -> bool
    ensures { result ≡ different suspects.now }
{
    let mut left = suspects;
    while let [suspect, rest @ ..] = left {
        if !none_names(rest, suspect.source) {
            return false;
        }
        left = rest;
    }
    true
}

impl HunkRow {
    // Whether the row is a hunk: its range, its count and its suspects are right.
    pub fn is_hunk(&self) -> bool
        ensures { result ≡ is_hunk self.now }
    {
        let range = self.range_in_blamed_file;
        let count = self.count;
        if range.start >= range.end || range.end > FILE_LIMIT || count == 0 || count > 8 {
            return false;
        }
        let used = &self.suspects[..count];
        all_fit(used, range.len()) && all_differ(used)
    }

    // The hunk that the row is, if it is one. (`TryFrom` is no plainer: its error would
    // say no more than `None`.)
    pub fn hunk(&self) -> Option<UnblamedHunk>
        ensures { option_map piece_of result ≡ read_row self.now }
    {
        if !self.is_hunk() {
            return None;
        }
        Some(UnblamedHunk {
            range_in_blamed_file: self.range_in_blamed_file,
            suspects: self.suspects,
            count: self.count,
        })
    }

    // The range of the first suspect in use that names the source, right or wrong.
    pub fn range_of(&self, source: Source) -> Option<Span>
        ensures { result ≡ range_at source (in_use self.now) }
    {
        range_at(&self.suspects[..self.count.min(8)], source)
    }

    // The row with `to`, at this range, in the place of `from`, and zeros behind
    // its suspects.
    pub fn renamed(self, from: Source, to: Source, range: Span) -> HunkRow
        ensures is { result ≡ renamed_row from to range self }
        ensures hunk { is_hunk self ≡ true → range ≡ span_of (row_piece self).size range.start
            → result ≡ row_of (with_suspects (row_piece self) (map (rename from to range.start) (row_piece self).suspects)) }
    {
        // Tried: `front`, and `rename` on it. The second pass made a table of 256 rows take
        // 1.1 times what gix-blame takes; with one it takes no longer.
        let used = &self.suspects[..self.count.min(8)];
        let mut suspects = [Suspect::default(); 8];
        for (i, suspect) in used.iter().enumerate() {
            suspects[i] = suspect.renamed(from, to, range);
        }
        HunkRow { suspects, ..self }
    }
}

// The row that is written of a hunk: zeros stand behind its suspects.
impl From<UnblamedHunk> for HunkRow {
    ghost from_gives = { λ h r. r ≡ row_of (piece_of h) };

    fn from(hunk: UnblamedHunk) -> HunkRow {
        HunkRow {
            range_in_blamed_file: hunk.range_in_blamed_file,
            suspects: front(hunk.suspects, hunk.count),
            count: hunk.count,
        }
    }
}
