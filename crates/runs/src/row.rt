ghost use Rattle.std.specs.Prelude.{◌≡◌, ◌+◌};

use change::line_range::LineRange;
use std::fmt;
use std::fmt::InlineText;

// Where the lines of a row come from. (An `Option` of the place is no plainer: that the
// commit set them is a finding, and not the want of one.)
#[derive(Clone, Copy, Debug, PartialEq, Eq)]
pub enum Origin {
    // The commit set them.
    Set,
    // The commit kept them; the first stands at this line of the parent.
    Kept(u32),
}

// A run of lines of the commit's file, as long as it can be, all of one origin.
#[derive(Clone, Copy)]
pub struct Row {
    pub lines: LineRange,
    pub origin: Origin,
}

// Lines as people count them: from one, the last included.
#[derive(Clone, Copy)]
struct Counted {
    first: u64,
    last: u64,
}

// So many lines from `start` on, which counts from 0.
fn count_from_one(start: u32, len: u32) -> Counted
    ensures { (result.first ≡ start + 1) × (result.last ≡ start + len) }
{
    let start = u64::from(start);
    Counted {
        first: start + 1,
        last: start + u64::from(len),
    }
}

impl fmt::Display for Counted {
    fn fmt<W: fmt::Write>(&self, f: &mut fmt::Formatter<W>) -> fmt::Result {
        let first = self.first;
        let last = self.last;
        if first == last {
            write!(f, "line {first}")
        } else {
            write!(f, "lines {first}-{last}")
        }
    }
}

// The lines, in a column that is wide enough for numbers of four digits, and their origin.
impl fmt::Display for Row {
    fn fmt<W: fmt::Write>(&self, f: &mut fmt::Formatter<W>) -> fmt::Result {
        let len = self.lines.len();
        let lines: InlineText<64> = InlineText::of(count_from_one(self.lines.start(), len));
        let lines = lines.as_str();
        match self.origin {
            Origin::Set => write!(f, "{lines:<16}set"),
            Origin::Kept(place) => {
                let places = count_from_one(place, len);
                write!(f, "{lines:<16}kept, {places} of the parent")
            }
        }
    }
}
