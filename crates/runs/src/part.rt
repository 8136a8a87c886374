ghost use Rattle.std.specs.Prelude.{◌≡◌};
ghost use Rattle.std.specs.Option.{option_map};
ghost use Rattle.runs.specs.Rows.{row_of};
ghost use Rattle.runs.specs.Parts.{part_of, Fits, Shared};

use crate::row::{Origin, Row};
use change::line_range::LineRange;
use change::span::Span;

// The lines of the row that are also in the range, if there are any. None, too,
// where their place would not fit its number, which no row of a valid list comes to.
pub fn part(row: Row, range: Span) -> Option<Row>
    ensures is { option_map row_of result ≡ part_of range (row_of row) }
    ensures lines { Fits (row_of row) → Shared range (row_of row) (option_map row_of result) }
{
    let start = row.lines.start().max(range.start);
    let end = row.lines.end().min(range.end);
    let lines = LineRange::new(start, end)?;
    let origin = match row.origin {
        Origin::Set => Origin::Set,
        Origin::Kept(place) => Origin::Kept(place.checked_add(start - row.lines.start())?),
    };
    Some(Row { lines, origin })
}
