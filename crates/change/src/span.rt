ghost use Rattle.std.specs.Prelude.{◌≡◌};
ghost use Rattle.change.specs.Lists.{lines};

use std::fmt;

// A range of lines as a row has it, right or wrong: from `start` up to `end`,
// which is excluded. Lines count from 0.
#[derive(Clone, Copy, Debug, PartialEq, Eq, Default)]
pub struct Span {
    pub start: u32,
    pub end: u32,
}

impl Span {
    // How many lines the range has: none where it ends before it starts.
    pub fn len(self) -> u32
        ensures { result ≡ lines self }
    {
        self.end.saturating_sub(self.start)
    }
}

impl fmt::Display for Span {
    fn fmt<W: fmt::Write>(&self, f: &mut fmt::Formatter<W>) -> fmt::Result {
        let start = self.start;
        let end = self.end;
        write!(f, "{start}..{end}")
    }
}
