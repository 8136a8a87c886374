ghost use Rattle.std.specs.Prelude.{◌≡◌, false};
ghost use Rattle.hunk.specs.Hunks.{same_source};

use change::valid::ValidList;
use hunk::source::Source;

// A commit and another one, its parent, and the list of what the one changed
// against the other.
#[derive(Clone, Copy)]
pub(crate) struct Comparison<'a> {
    pub(crate) list: ValidList<'a>,
    pub(crate) suspect: Source,
    pub(crate) parent: Source,
    ghost differ: { same_source suspect parent ≡ false },
}
