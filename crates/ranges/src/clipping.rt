ghost use Rattle.std.specs.Prelude.{◌≡◌};
ghost use Rattle.ranges.specs.Clips.{cut_of, cut_all, all_of};
ghost use Rattle.ranges.specs.Spans.{span_of};
ghost use Rattle.ranges.specs.Ranges.{rows_of};
ghost use Rattle.ranges.specs.Rows.{laid};

use crate::clipped::Clipped;
use crate::rows::Rows;
use change::line_range::LineRange;
use change::span::Span;

// The row with its end cut to `max_lines`, if it begins before.
fn cut_row(row: LineRange, max_lines: u32) -> Option<Span>
    ensures { result ≡ cut_of max_lines (span_of row) }
{
    if row.start() < max_lines {
        Some(Span {
            start: row.start(),
            end: row.end().min(max_lines),
        })
    } else {
        None
    }
}

// What is left of the rows in a file of `max_lines` lines.
pub fn cut(rows: &Rows, max_lines: u32) -> Clipped
    ensures { result ≡ laid (cut_all max_lines (rows_of rows.now)) }
{
    let mut out = Clipped {
        ranges: [Span::default(); 64],
        count: 0,
    };
    for row in rows.table.as_slice() {
        if let Some(range) = cut_row(*row, max_lines) {
            out.ranges[out.count] = range;
            out.count += 1;
        }
    }
    out
}

// All lines of a file.
pub fn all_lines(max_lines: u32) -> Clipped
    ensures { result ≡ laid (all_of max_lines) }
{
    let mut ranges = [Span::default(); 64];
    ranges[0].end = max_lines;
    Clipped {
        ranges,
        count: if 0 < max_lines { 1 } else { 0 },
    }
}
