ghost use Rattle.std.specs.Prelude.{◌≡◌, ◌+◌, ◌^◌, ◌<◌, false, map, length, IfOk, OnOk};
ghost use Rattle.listing.specs.Listings.{kinds, lists_of, outside_of};
ghost use Rattle.listing.specs.Entries.{entry_of, entry_at, Passed};

use crate::line::{Line, read_line};
use change::change::Change;
use std::alloc::{AllocError, Global};
use text::lines::first_line;

// A list as the text has it. Lines of the text count from 1.
#[derive(Drop)]
pub struct Recorded<'a> {
    // The number of the heading line, and the name that it gives.
    pub line: usize,
    pub name: &'a [u8],
    pub changes: Vec<Change>,
    // The numbers of the list's lines that are no change.
    pub strays: Vec<usize>,
}

// All lists of a text, and the numbers of the lines that belong to none.
#[derive(Drop)]
pub struct Listing<'a> {
    pub lists: Vec<Recorded<'a>>,
    pub strays: Vec<usize>,
}

// A place in the text: what is left of it, and the number of the line there.
#[derive(Clone, Copy)]
struct Cursor<'a> {
    rest: &'a [u8],
    line: usize,
}

// The list whose lines begin at the cursor, which passes them. (A `for` over the lines is no
// plainer: the line at which this stops is the caller's next.)
fn read_list<'a>(
    heap: Global,
    line: usize,
    name: &'a [u8],
    cursor: &mut Cursor<'a>,
) -> Result<Recorded<'a>, AllocError>
    requires { cursor.old.line + length cursor.old.rest.now < 2 ^ 64 }
    ensures list { IfOk result (λ l. entry_of l ≡ entry_at line name.now cursor.old.line (kinds cursor.old.rest.now)) }
    ensures passed { OnOk result (Passed cursor.old.line cursor.old.rest.now cursor.new.line cursor.new.rest.now) }
{
    let mut changes = Vec::new(heap);
    let mut strays = Vec::new(heap);
    let mut at = *cursor;
    while !at.rest.is_empty() {
        let (text, rest) = first_line(at.rest);
        match read_line(text) {
            Line::Heading(_) => break,
            Line::Blank => break,
            Line::Change(change) => changes.push(change)?,
            Line::Other => strays.push(at.line)?,
        }
        at.rest = rest;
        at.line += 1;
    }
    *cursor = at;
    Ok(Recorded {
        line,
        name,
        changes,
        strays,
    })
}

// The lists of a text, in its order. (No `for` here: `read_list` passes lines of this loop.)
pub fn read<'a>(heap: Global, text: &'a [u8]) -> Result<Listing<'a>, AllocError>
    ensures lists { IfOk result (λ l. map entry_of l.lists.items ≡ lists_of 1 (kinds text.now)) }
    ensures strays { IfOk result (λ l. l.strays.items ≡ outside_of 1 false (kinds text.now)) }
{
    let mut lists = Vec::new(heap);
    let mut strays = Vec::new(heap);
    let mut at = Cursor {
        rest: text,
        line: 1,
    };
    while !at.rest.is_empty() {
        let (line, rest) = first_line(at.rest);
        let number = at.line;
        at.rest = rest;
        at.line += 1;
        match read_line(line) {
            Line::Heading(name) => lists.push(read_list(heap, number, name, &mut at)?)?,
            Line::Blank => {}
            Line::Change(_) => strays.push(number)?,
            Line::Other => strays.push(number)?,
        }
    }
    Ok(Listing { lists, strays })
}
