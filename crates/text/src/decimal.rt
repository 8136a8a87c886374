ghost use Rattle.std.specs.Prelude.{◌≡◌};
ghost use Rattle.text.specs.Decimal.{told, number_of};

// The number that the digits in front of the text write, if there are any and it is at
// most `most`, and what stands behind them. (It stops at the digit that passes the most, and
// reads none behind it; zeros in front are read, however many.)
pub fn number(text: &[u8], most: u32) -> Option<(u32, &[u8])>
    ensures { told result ≡ number_of most text.now }
{
    let mut value: u64 = 0;
    let mut left = text;
    while let [digit, rest @ ..] = left {
        if !digit.is_ascii_digit() {
            break;
        }
        value = value * 10 + u64::from(*digit - b'0');
        if value > u64::from(most) {
            return None;
        }
        left = rest;
    }
    if left.len() < text.len() {
        Some((value as u32, left))
    } else {
        None
    }
}
