ghost use Rattle.std.specs.Prelude.{◌≡◌, ◌+◌, ◌≤◌, IfSome};
ghost use Rattle.hunk.specs.Hunks.{names, range_in};
ghost use Rattle.hunk.specs.Rows.{piece_of};

use crate::hunk::UnblamedHunk;
use crate::source::Source;
use crate::suspects::range_at;
use change::span::Span;

impl UnblamedHunk {
    // The range of the hunk in what the suspect names, if it names it.
    #[tactic(auto, using(crate::proofs::Rowwise::told_range))]
    pub fn get_range(&self, source: Source) -> Option<Span>
        ensures is { result ≡ range_in source (piece_of self.now) }
        ensures within { IfSome result (λ s. (s.start + (piece_of self.now).size ≡ s.end) × (s.end ≤ 16777215)) }
    {
        range_at(&self.suspects[..self.count], source)
    }

    // Whether the hunk names it.
    pub fn has_suspect(&self, source: Source) -> bool
        ensures { result ≡ names source (piece_of self.now) }
    {
        self.get_range(source).is_some()
    }
}
