ghost use Rattle.std.specs.Prelude.{◌≡◌};
ghost use Rattle.text.specs.Decimal.{told};
ghost use Rattle.compare.specs.Tokens.{bytes, padded_in, plain_of, next_of, mark_of, size_of};

use text::decimal::number;

// Whether a needless zero stands in front.
fn padded(text: &[u8]) -> bool
    ensures { result ≡ padded_in text.now }
{
    text.len() > 1 && text[0] == b'0' && text[1].is_ascii_digit()
}

// The number in front of the text, and what stands behind it.
pub fn plain(text: &[u8]) -> Option<(u32, &[u8])>
    ensures { told result ≡ plain_of text.now }
{
    if padded(text) {
        None
    } else {
        number(text, u32::MAX)
    }
}

// The number behind a space.
pub fn next(text: &[u8]) -> Option<(u32, &[u8])>
    ensures { told result ≡ next_of text.now }
{
    match text {
        [b' ', rest @ ..] => plain(rest),
        _ => None,
    }
}

// What stands behind a space and this letter or semicolon.
fn mark(text: &[u8], byte: u8) -> Option<&[u8]>
    ensures { bytes result ≡ mark_of byte text.now }
{
    match text {
        [b' ', found, rest @ ..] if *found == byte => Some(rest),
        _ => None,
    }
}

// How many items a part has, behind a semicolon and its letter.
pub fn size(text: &[u8], letter: u8) -> Option<(u32, &[u8])>
    ensures { told result ≡ size_of letter text.now }
{
    next(mark(mark(text, b';')?, letter)?)
}
