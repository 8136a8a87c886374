ghost use Rattle.std.specs.Prelude.{◌≡◌, ◌++◌, map, min, take, replicate, ◌-◌};
ghost use Rattle.hunk.specs.Rows.{range_at, rename_at};
ghost use Rattle.hunk.specs.Sound.{blank};

use crate::source::Source;
use crate::suspect::Suspect;
use change::span::Span;

// The range of the first of the suspects that names the source. (A loop for its speed, as in
// `rows`.)
pub(crate) fn range_at(suspects: &[Suspect], source: Source) -> Option<Span>
    ensures { result ≡ range_at source suspects.now }
{
    for suspect in suspects {
        if suspect.source == source {
            return Some(suspect.range);
        }
    }
    None
}

// Names `to`, with this range, wherever `from` is named.
pub(crate) fn rename(suspects: &mut [Suspect], from: Source, to: Source, range: Span)
    ensures { suspects.new ≡ map (rename_at from to range) suspects.old }
{
    for suspect in suspects.iter_mut() {
        *suspect = suspect.renamed(from, to, range);
    }
}

// The first `count` suspects, and zeros behind them. (Tried: `copy_from_slice`; with it a
// table of 256 rows took 1.08 times what gix-blame takes.)
pub(crate) fn front(suspects: [Suspect; 8], count: usize) -> [Suspect; 8]
    ensures { result ≡ take (min count 8) suspects ++ replicate (8 - min count 8) blank }
{
    let count = count.min(8);
    let mut written = [Suspect::default(); 8];
    for (i, suspect) in suspects[..count].iter().enumerate() {
        written[i] = *suspect;
    }
    written
}
