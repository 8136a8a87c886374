ghost use Rattle.std.specs.Prelude.{◌<◌, ◌≤◌};
ghost use Rattle.hunk.specs.Sound.{Level, Within, Apart};

use crate::suspect::Suspect;
use change::span::Span;

// Lines of the asked file, and one to eight suspects, of which the first `count`
// of the array are in use: different commits, each with a range of equal length.
// (An array and a count, since hunks are `Copy` and lie in the caller's tables, which
// need no heap: a library's vector is not `Copy`.)
#[derive(Clone, Copy)]
pub struct UnblamedHunk {
    pub range_in_blamed_file: Span,
    pub suspects: [Suspect; 8],
    pub count: usize,
    ghost few: { count ≤ 8 },
    ghost some: { 0 < count },
    ghost lines: { range_in_blamed_file.start < range_in_blamed_file.end },
    ghost limit: { range_in_blamed_file.end ≤ 16777215 },
    ghost level: { Level range_in_blamed_file suspects count },
    ghost within: { Within suspects count },
    ghost apart: { Apart suspects count },
}
