ghost use Rattle.std.specs.Prelude.{◌≡◌};
ghost use Rattle.hunk.specs.Rows.{rename_at};

use crate::source::Source;
use change::span::Span;

// A commit that may have set a hunk's lines, and where they stand in it.
#[derive(Clone, Copy, Debug, PartialEq, Eq, Default)]
pub struct Suspect {
    pub source: Source,
    pub range: Span,
}

impl Suspect {
    // `to` with this range, if it names `from`. (These are parameters here and wherever a
    // hunk or a row is passed on, as in gix-blame's `passed_blame(from, to)`: a struct of
    // them would be made for one call, and taken apart in it.)
    pub(crate) fn renamed(self, from: Source, to: Source, range: Span) -> Suspect
        ensures { result ≡ rename_at from to range self }
    {
        if self.source == from {
            Suspect { source: to, range }
        } else {
            self
        }
    }
}
