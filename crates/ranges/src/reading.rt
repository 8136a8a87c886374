ghost use Rattle.std.specs.Prelude.{◌≡◌, ℕ, ◌≤◌, ◌&&◌, length, nat_lt};
ghost use Rattle.ranges.specs.Spans.{spans, whole, any_has, asked, Apart};
ghost use Rattle.ranges.specs.Clips.{clip_of, Within};
ghost use Rattle.ranges.specs.Rows.{laid, in_use};
ghost use Rattle.ranges.specs.Ranges.{ranges_of};

use crate::blame_ranges::BlameRanges;
use crate::clipped::Clipped;
use crate::clipping::{all_lines, cut};
use change::line_range::LineRange;

impl BlameRanges {
    // The ranges, in order and apart: none of the whole file.
    pub fn as_slice(&self) -> &[LineRange]
        ensures is { spans result.now ≡ ranges_of self.now }
        ensures apart { Apart (spans result.now) }
        ensures few { length result.now ≤ 64 }
    {
        self.ranges.table.as_slice()
    }

    // How many ranges there are.
    pub fn len(&self) -> usize
        ensures { result ≡ length (ranges_of self.now) }
    {
        self.ranges.table.len()
    }

    pub fn is_whole_file(&self) -> bool
        ensures { result ≡ whole (ranges_of self.now) }
    {
        self.len() == 0
    }

    // What is asked of a file of `max_lines` lines.
    pub fn to_zero_based_exclusive_ranges(&self, max_lines: u32) -> Clipped
        ensures is { result ≡ laid (clip_of max_lines (ranges_of self.now)) }
        ensures lines { (n : ℕ) → any_has (in_use result) n ≡ (asked (ranges_of self.now) n && nat_lt n max_lines) }
        ensures within { Within max_lines (in_use result) }
    {
        if self.is_whole_file() {
            all_lines(max_lines)
        } else {
            cut(&self.ranges, max_lines)
        }
    }
}
