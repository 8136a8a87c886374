use crate::span::Span;

// What a commit did to some lines, in the numbers of its own file.
#[derive(Clone, Copy, Debug, PartialEq, Eq)]
pub enum Change {
    // The lines of the range stand in the parent too.
    Unchanged(Span),
    // The lines of the range were set, in place of so many of the parent's.
    AddedOrReplaced(Span, u32),
    // So many lines of the parent were deleted before this line.
    Deleted(u32, u32),
}
