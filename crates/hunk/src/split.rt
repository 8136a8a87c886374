ghost use Rattle.std.specs.Prelude.{◌≡◌, ◌+◌, ◌<◌};
ghost use Rattle.hunk.specs.Hunks.{front, back, cut};
ghost use Rattle.hunk.specs.Rows.{piece_of};
ghost use Rattle.hunk.specs.Parts.{parts_of};

use crate::hunk::UnblamedHunk;
use crate::source::Source;
use crate::suspect::Suspect;
use change::span::Span;
use either::Either;

// The first k lines of the hunk, and the lines behind them.
fn halves(hunk: UnblamedHunk, k: u32) -> (UnblamedHunk, UnblamedHunk)
    requires inside { (0 < k) × (hunk.range_in_blamed_file.start + k < hunk.range_in_blamed_file.end) }
    ensures front { piece_of result.0 ≡ front k (piece_of hunk) }
    ensures back { piece_of result.1 ≡ back k (piece_of hunk) }
{
    let Span { start, end } = hunk.range_in_blamed_file;
    let mid = start + k;
    let suspects = hunk.suspects;
    let mut before = suspects;
    let mut after = suspects;
    for (i, suspect) in suspects[..hunk.count].iter().enumerate() {
        let mid = suspect.range.start + k;
        before[i] = Suspect {
            range: Span {
                end: mid,
                ..suspect.range
            },
            ..*suspect
        };
        after[i] = Suspect {
            range: Span {
                start: mid,
                ..suspect.range
            },
            ..*suspect
        };
    }
    let before = UnblamedHunk {
        range_in_blamed_file: Span { start, end: mid },
        suspects: before,
        count: hunk.count,
    };
    let after = UnblamedHunk {
        range_in_blamed_file: Span { start: mid, end },
        suspects: after,
        count: hunk.count,
    };
    (before, after)
}

impl UnblamedHunk {
    // The hunk left whole, or cut in two before this line of what the suspect names,
    // if that is strictly inside.
    pub fn split_at(
        self,
        source: Source,
        line: u32,
    ) -> Either<UnblamedHunk, (UnblamedHunk, UnblamedHunk)>
        ensures { parts_of result ≡ cut source line (piece_of self) }
    {
        let Some(range) = self.get_range(source) else {
            return Either::Left(self);
        };
        if range.start < line && line < range.end {
            Either::Right(halves(self, line - range.start))
        } else {
            Either::Left(self)
        }
    }
}
