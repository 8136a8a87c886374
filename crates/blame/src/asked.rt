ghost use Rattle.std.specs.Prelude.{◌≡◌};
ghost use Rattle.blame.specs.Asked.{asked_of};

use ranges::one_based::OneBased;
use text::decimal::number;

// The lines that the text asks for as `FIRST,LAST`, right or wrong.
pub fn one_based(text: &[u8]) -> Option<OneBased>
    ensures { result ≡ asked_of text.now }
{
    let (first, rest) = number(text, u32::MAX)?;
    let (last, rest) = number(rest.strip_prefix(b",")?, u32::MAX)?;
    if rest.is_empty() {
        Some(OneBased { first, last })
    } else {
        None
    }
}
