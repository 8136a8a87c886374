ghost use Rattle.std.specs.Prelude.{◌≡◌, ◌+◌, ◌<◌, ◌≤◌, false, map, length};
ghost use Rattle.std.specs.Option.{option_map};
ghost use Rattle.hunk.specs.Hunks.{names, rename, with_suspects, without};
ghost use Rattle.hunk.specs.Rows.{piece_of, passed_of};

use crate::hunk::UnblamedHunk;
use crate::source::Source;
use crate::suspects::rename;
use change::list::FILE_LIMIT;
use change::span::Span;

// The hunk with `to`, whose range begins at `start`, in the place of `from`.
fn renamed(hunk: UnblamedHunk, from: Source, to: Source, start: u32) -> UnblamedHunk
    requires new { names to (piece_of hunk) ≡ false }
    requires fits { start + (piece_of hunk).size ≤ 16777215 }
    ensures { piece_of result ≡ with_suspects (piece_of hunk) (map (rename from to start) (piece_of hunk).suspects) }
{
    let end = start + hunk.range_in_blamed_file.len();
    let mut suspects = hunk.suspects;
    rename(&mut suspects[..hunk.count], from, to, Span { start, end });
    UnblamedHunk {
        range_in_blamed_file: hunk.range_in_blamed_file,
        suspects,
        count: hunk.count,
    }
}

// The hunk without `from`. (Those that stay are put into the array by their place: what
// `filter` leaves can be collected into an `ArrayVec`, and would be copied from there.)
fn dropped(hunk: UnblamedHunk, from: Source) -> UnblamedHunk
    requires { 0 < length (without from (piece_of hunk)).suspects }
    ensures { piece_of result ≡ without from (piece_of hunk) }
{
    let suspects = hunk.suspects;
    let mut left = suspects;
    let mut count = 0;
    for suspect in &suspects[..hunk.count] {
        if suspect.source != from {
            left[count] = *suspect;
            count += 1;
        }
    }
    UnblamedHunk {
        range_in_blamed_file: hunk.range_in_blamed_file,
        suspects: left,
        count,
    }
}

impl UnblamedHunk {
    // The hunk with `to`, whose range begins at `start`, in the place of `from`;
    // where it names `to` already, that range stays and `from` is only dropped.
    // None if it does not name `from`, if both are the same, or past the file limit.
    pub fn passed_blame(self, from: Source, to: Source, start: u32) -> Option<UnblamedHunk>
        ensures { option_map piece_of result ≡ passed_of from to start (piece_of self) }
    {
        let size = self.range_in_blamed_file.len();
        if !self.has_suspect(from) || from == to || start > FILE_LIMIT - size {
            return None;
        }
        if self.has_suspect(to) {
            Some(dropped(self, from))
        } else {
            Some(renamed(self, from, to, start))
        }
    }
}
