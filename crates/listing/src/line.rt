ghost use Rattle.std.specs.Prelude.{◌≡◌};
ghost use Rattle.text.specs.Decimal.{told};
ghost use Rattle.listing.specs.Format.{Reads};
ghost use Rattle.listing.specs.Listings.{tell, kind_of};
ghost use Rattle.listing.specs.Parsing.{span_of, count_of, unchanged_of, added_of, deleted_of, change_of};

use change::change::Change;
use change::span::Span;
use text::decimal::number;

// A line of the text, by what it is.
#[derive(Clone, Copy)]
pub enum Line<'a> {
    Heading(&'a [u8]),
    Change(Change),
    Blank,
    Other,
}

// The range `a..b` in front of the text, and what stands behind it.
fn span(text: &[u8]) -> Option<(Span, &[u8])>
    ensures { told result ≡ span_of text.now }
{
    let (start, rest) = number(text, u32::MAX)?;
    let (end, rest) = number(rest.strip_prefix(b"..")?, u32::MAX)?;
    Some((Span { start, end }, rest))
}

// The count that the text writes as `/n`.
fn count(text: &[u8]) -> Option<u32>
    ensures { result ≡ count_of text.now }
{
    let (count, rest) = number(text.strip_prefix(b"/")?, u32::MAX)?;
    if rest.is_empty() { Some(count) } else { None }
}

// The change that stands behind `U `, `A ` or `D `.
fn unchanged(text: &[u8]) -> Option<Change>
    ensures { result ≡ unchanged_of text.now }
{
    let (range, rest) = span(text)?;
    if rest.is_empty() {
        Some(Change::Unchanged(range))
    } else {
        None
    }
}

fn added(text: &[u8]) -> Option<Change>
    ensures { result ≡ added_of text.now }
{
    let (range, rest) = span(text)?;
    Some(Change::AddedOrReplaced(range, count(rest)?))
}

fn deleted(text: &[u8]) -> Option<Change>
    ensures { result ≡ deleted_of text.now }
{
    let (line, rest) = number(text, u32::MAX)?;
    Some(Change::Deleted(line, count(rest)?))
}

fn parse(line: &[u8]) -> Option<Change>
    ensures { result ≡ change_of line.now }
{
    match line {
        [b'U', b' ', rest @ ..] => unchanged(rest),
        [b'A', b' ', rest @ ..] => added(rest),
        [b'D', b' ', rest @ ..] => deleted(rest),
        _ => None,
    }
}

// The change that the line writes: `U a..b`, `A a..b/n` or `D a/n`.
pub fn read_change(line: &[u8]) -> Option<Change>
    ensures is { result ≡ change_of line.now }
    ensures reads { Reads line.now result }
{
    parse(line)
}

pub fn read_line(line: &[u8]) -> Line<'_>
    ensures { tell result ≡ kind_of line.now }
{
    match line {
        [] => Line::Blank,
        [b'c', b'o', b'm', b'm', b'i', b't', b' ', name @ ..] => Line::Heading(name),
        _ => match read_change(line) {
            Some(change) => Line::Change(change),
            None => Line::Other,
        },
    }
}
