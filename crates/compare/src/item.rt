ghost use Rattle.std.specs.Prelude.{◌≡◌, ℕ, ◌≤◌, List, Option};
ghost use Rattle.text.specs.Decimal.{told};
ghost use Rattle.compare.specs.Items.{span_of, suspect_of, suspects_of, row_of, unchanged_of, added_of, deleted_of, change_of, sources_of};

use crate::token::{next, plain};
use change::change::Change;
use change::span::Span;
use hunk::row::HunkRow;
use hunk::source::Source;
use hunk::suspect::Suspect;

// The most suspects that a row holds.
const SUSPECTS: usize = 8;

// What a part of a case is made of. (Change lists have readers of their own in `listing`;
// the two texts part their numbers by other bytes.)
pub trait Item: Copy {
    ghost reads: { List ℕ → Option (Self × List ℕ) };

    // The item in front of the text, and what stands behind it.
    fn read(text: &[u8]) -> Option<(Self, &[u8])>
        ensures { told result ≡ reads text.now };
}

impl Item for HunkRow {
    ghost reads = { row_of };

    fn read(text: &[u8]) -> Option<(HunkRow, &[u8])> {
        row(text)
    }
}

impl Item for Change {
    ghost reads = { change_of };

    fn read(text: &[u8]) -> Option<(Change, &[u8])> {
        change(text)
    }
}

fn span(text: &[u8]) -> Option<(Span, &[u8])>
    ensures { told result ≡ span_of text.now }
{
    let (start, rest) = next(text)?;
    let (end, rest) = next(rest)?;
    Some((Span { start, end }, rest))
}

fn suspect(text: &[u8]) -> Option<(Suspect, &[u8])>
    ensures { told result ≡ suspect_of text.now }
{
    let (commit, rest) = next(text)?;
    let (range, rest) = span(rest)?;
    let source = Source { commit };
    Some((Suspect { source, range }, rest))
}

fn suspects(text: &[u8], count: usize) -> Option<([Suspect; 8], &[u8])>
    requires { count ≤ 8 }
    ensures { told result ≡ suspects_of count text.now }
{
    let mut suspects = [Suspect::default(); 8];
    let mut rest = text;
    for place in suspects[..count].iter_mut() {
        let (found, behind) = suspect(rest)?;
        *place = found;
        rest = behind;
    }
    Some((suspects, rest))
}

fn row(text: &[u8]) -> Option<(HunkRow, &[u8])>
    ensures { told result ≡ row_of text.now }
{
    let (range_in_blamed_file, rest) = span(text)?;
    let (count, rest) = next(rest)?;
    let count = count as usize;
    if count > SUSPECTS {
        return None;
    }
    let (suspects, rest) = suspects(rest, count)?;
    Some((
        HunkRow {
            range_in_blamed_file,
            suspects,
            count,
        },
        rest,
    ))
}

fn unchanged(text: &[u8]) -> Option<(Change, &[u8])>
    ensures { told result ≡ unchanged_of text.now }
{
    let (range, rest) = span(text)?;
    Some((Change::Unchanged(range), rest))
}

fn added(text: &[u8]) -> Option<(Change, &[u8])>
    ensures { told result ≡ added_of text.now }
{
    let (range, rest) = span(text)?;
    let (deleted, rest) = next(rest)?;
    Some((Change::AddedOrReplaced(range, deleted), rest))
}

fn deleted(text: &[u8]) -> Option<(Change, &[u8])>
    ensures { told result ≡ deleted_of text.now }
{
    let (line, rest) = next(text)?;
    let (deleted, rest) = next(rest)?;
    Some((Change::Deleted(line, deleted), rest))
}

fn change(text: &[u8]) -> Option<(Change, &[u8])>
    ensures { told result ≡ change_of text.now }
{
    match text {
        [b' ', b'U', rest @ ..] => unchanged(rest),
        [b' ', b'A', rest @ ..] => added(rest),
        [b' ', b'D', rest @ ..] => deleted(rest),
        _ => None,
    }
}

// The suspect and its parent.
pub fn sources(text: &[u8]) -> Option<((Source, Source), &[u8])>
    ensures { told result ≡ sources_of text.now }
{
    let (suspect, rest) = plain(text)?;
    let (parent, rest) = next(rest)?;
    Some((
        (Source { commit: suspect }, Source { commit: parent }),
        rest,
    ))
}
