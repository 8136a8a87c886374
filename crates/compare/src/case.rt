ghost use Rattle.std.specs.Prelude.{◌≡◌, Some, MatchResult};
ghost use Rattle.compare.specs.Lines.{part_of, parts_of, parts_in, Fails};

use crate::item::{Item, sources};
use crate::token::size;
use change::change::Change;
use change::unmade::Unmade;
use hunk::row::HunkRow;
use hunk::source::Source;
use std::alloc::Global;

// What `process_changes` is called with, and the rows that it is to write.
#[derive(Drop)]
pub struct Case {
    pub suspect: Source,
    pub parent: Source,
    pub rows: Vec<HunkRow>,
    pub changes: Vec<Change>,
    pub expected: Vec<HunkRow>,
}

// The line is no case.
#[derive(Clone, Copy, Debug, PartialEq, Eq)]
pub struct NoCase;

// A part of a case. One that is shorter than it says ends the reading.
fn read_part<T: Item>(
    heap: Global,
    text: &[u8],
    letter: u8,
) -> Result<(Vec<T>, &[u8]), Unmade<NoCase>>
    ensures { MatchResult result (λ x. part_of T.Item.reads letter text.now ≡ Some (x.0.items, x.1.now))
        (Fails (part_of T.Item.reads letter text.now)) }
{
    let Some((size, mut rest)) = size(text, letter) else {
        return Err(Unmade::Refused(NoCase));
    };
    let mut items = Vec::new(heap);
    for _ in 0..size {
        let Some(read) = T::read(rest) else {
            return Err(Unmade::Refused(NoCase));
        };
        let (item, behind) = read;
        items.push(item)?;
        rest = behind;
    }
    Ok((items, rest))
}

// The case that the line writes.
pub fn read_case(heap: Global, line: &[u8]) -> Result<Case, Unmade<NoCase>>
    ensures { MatchResult result (λ x. parts_of line.now ≡ Some (parts_in x)) (Fails (parts_of line.now)) }
{
    let Some(((suspect, parent), rest)) = sources(line) else {
        return Err(Unmade::Refused(NoCase));
    };
    let (rows, rest) = read_part::<HunkRow>(heap, rest, b'H')?;
    let (changes, rest) = read_part::<Change>(heap, rest, b'C')?;
    let (expected, rest) = read_part::<HunkRow>(heap, rest, b'R')?;
    if !rest.is_empty() {
        return Err(Unmade::Refused(NoCase));
    }
    Ok(Case {
        suspect,
        parent,
        rows,
        changes,
        expected,
    })
}
