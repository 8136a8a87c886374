ghost use Rattle.rank.specs.Abutting.{starts_after, abuts, spanning};
ghost use Rattle.rank.specs.Touching.{touch};
ghost use Rattle.std.proofs.Common.{rules, arith};

use crate::joining::Joining;
use crate::ranking::Ranked;
use crate::touching::Touching;
use change::line_range::LineRange;
use change::list::FILE_LIMIT;

// Ranges rank by their start.
impl Ranked for LineRange {
    ghost after = { starts_after };

    ghost total = { Prim.search rules };

    ghost transitive = { Prim.search rules };

    fn ranks_after(&self, other: &LineRange) -> bool {
        other.start() < self.start()
    }
}

// A range joins the one that starts where it ends.
impl Joining for LineRange {
    ghost joins = { abuts };

    ghost joined = { spanning };

    ghost rank = { Prim.search rules };

    ghost onward = { Prim.search rules };

    ghost inward = { Prim.search rules };

    ghost one_result = { Prim.grind (arith, Self.row.coded.inj) };

    fn joins_with(&self, other: &LineRange) -> bool {
        self.end() == other.start() && other.end() <= FILE_LIMIT
    }

    fn joined_with(&self, other: &LineRange) -> Option<LineRange> {
        if self.joins_with(other) {
            LineRange::new(self.start(), other.end())
        } else {
            None
        }
    }
}

impl Touching for LineRange {
    ghost touches = { touch };

    fn touches(&self, other: &LineRange) -> bool {
        other.start() <= self.end() && self.start() <= other.end()
    }
}
