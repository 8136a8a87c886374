ghost use Rattle.rank.specs.Queue.{waits_for};
ghost use Rattle.std.proofs.Common.{rules};

use crate::ranking::Ranked;
use hunk::source::Source;

// A source whose turn is still to come, with the time of its commit.
#[derive(Clone, Copy, Debug, PartialEq, Eq)]
pub struct QueuedCommit {
    pub time: i64,
    pub source: Source,
}

// The later ranks first, and of one time the one with the lower number. (Tried: `cmp` of both,
// joined by `then` and by `then_with`; commits of one time took 1.6 times as long to queue.)
impl Ranked for QueuedCommit {
    ghost after = { waits_for };

    ghost total = { Prim.search rules };

    ghost transitive = { Prim.search rules };

    fn ranks_after(&self, other: &QueuedCommit) -> bool {
        self.time < other.time
            || (self.time == other.time && other.source.commit < self.source.commit)
    }
}
