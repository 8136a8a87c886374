ghost use Rattle.std.specs.Prelude.{◌≡◌};
ghost use Rattle.ranges.specs.Spans.{span_of, spans, hull, merged};

use change::line_range::LineRange;
use rank::touching::Touching;

// From the lower start to the higher end.
fn join(a: LineRange, b: LineRange) -> LineRange
    ensures { span_of result ≡ hull (span_of a) (span_of b) }
{
    LineRange::new(a.start().min(b.start()), a.end().max(b.end())).unwrap()
}

// The range widened over all rows that it touches.
pub fn widen(range: LineRange, rows: &[LineRange]) -> LineRange
    ensures { span_of result ≡ merged (span_of range) (spans rows.now) }
{
    let mut wide = range;
    for row in rows {
        if range.touches(row) {
            wide = join(wide, *row);
        }
    }
    wide
}
