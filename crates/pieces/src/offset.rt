ghost use Rattle.std.specs.Prelude.{◌≡◌, ◌+◌, ◌^◌, ◌<◌, ◌≤◌};
ghost use Rattle.pieces.specs.Offsets.{size_of, plus, minus, shifted, shifted_range};
ghost use Rattle.pieces.specs.Steps.{passing};
ghost use Rattle.pieces.specs.Walkers.{weight_of};

use change::list::FILE_LIMIT;
use change::span::Span;

// How far lines of the commit stand from their place in the parent: by lines
// added before them, or by lines deleted before them. (Two cases of one kind, as in
// gix-blame: a `Result` would make one of them a failure.)
#[derive(Clone, Copy, Debug, PartialEq, Eq)]
pub enum Offset {
    Added(u32),
    Deleted(u32),
}

// Each move says by how much the offset may grow, for whoever adds up many. (Tried: a lemma in
// place of these clauses; then each caller has to name it.)
impl Offset {
    // With so many lines added. (`AddAssign` would be public, as the type is, and would
    // have to ask its caller that the sum fits; so would `SubAssign`.)
    pub(crate) fn add_assign(&mut self, lines: u32)
        requires { size_of self.old + lines < 2 ^ 32 }
        ensures is { self.new ≡ plus self.old lines }
        ensures size { size_of self.new ≤ size_of self.old + lines }
    {
        *self = match *self {
            Offset::Added(added) => Offset::Added(added + lines),
            Offset::Deleted(deleted) if lines > deleted => Offset::Added(lines - deleted),
            Offset::Deleted(deleted) => Offset::Deleted(deleted - lines),
        };
    }

    // With so many lines deleted.
    pub(crate) fn sub_assign(&mut self, lines: u32)
        requires { size_of self.old + lines < 2 ^ 32 }
        ensures is { self.new ≡ minus self.old lines }
        ensures size { size_of self.new ≤ size_of self.old + lines }
    {
        *self = match *self {
            Offset::Added(added) if lines > added => Offset::Deleted(lines - added),
            Offset::Added(added) => Offset::Added(added - lines),
            Offset::Deleted(deleted) => Offset::Deleted(deleted + lines),
        };
    }

    // Behind an added or replaced range.
    pub(crate) fn pass_added(&mut self, added: Span, deleted: u32)
        requires { size_of self.old + weight_of added deleted < 2 ^ 32 }
        ensures is { self.new ≡ passing self.old added deleted }
        ensures size { size_of self.new ≤ size_of self.old + weight_of added deleted }
    {
        self.add_assign(added.len());
        self.sub_assign(deleted);
    }

    // The place in the parent of a line, if there is one.
    pub fn shifted(self, line: u32) -> Option<u32>
        ensures { result ≡ shifted self line }
    {
        match self {
            Offset::Added(added) => line.checked_sub(added),
            Offset::Deleted(deleted) => line.checked_add(deleted),
        }
    }

    // The range in the parent of a range, if it ends within the file limit.
    pub fn shifted_range(self, range: Span) -> Option<Span>
        ensures { result ≡ shifted_range self range }
    {
        let size = range.len();
        let start = self.shifted(range.start)?;
        if size <= FILE_LIMIT && start <= FILE_LIMIT - size {
            Some(Span {
                start,
                end: start + size,
            })
        } else {
            None
        }
    }
}
