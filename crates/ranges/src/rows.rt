ghost use Rattle.std.specs.Prelude.{◌≡◌};
ghost use Rattle.rank.specs.Tables.{items_of};
ghost use Rattle.ranges.specs.Spans.{spans, Apart};

use change::line_range::LineRange;
use rank::table::Table;

// At most 64 ranges, in order and a line or more apart.
#[derive(Drop)]
pub(crate) struct Rows {
    pub(crate) table: Table<LineRange>,
    ghost limit: { table.limit ≡ 64 },
    ghost apart: { Apart (spans (items_of table)) },
}
