ghost use Rattle.std.specs.Prelude.{◌≡◌};
ghost use Rattle.hunk.specs.Rows.{piece_of, made_of, added_of, told_of};

use crate::fault::{EmptyRange, SuspectFault};
use crate::hunk::UnblamedHunk;
use crate::source::Source;
use crate::suspect::Suspect;
use change::list::FILE_LIMIT;
use change::span::Span;

impl UnblamedHunk {
    // The hunk of these lines, with one suspect, in which they stand where they
    // do in the asked file.
    pub fn new(range: Span, source: Source) -> Result<UnblamedHunk, EmptyRange>
        ensures { told_of result ≡ made_of range source }
    {
        if range.start < range.end && range.end <= FILE_LIMIT {
            let suspects = [Suspect { source, range }; 8];
            Ok(UnblamedHunk {
                range_in_blamed_file: range,
                suspects,
                count: 1,
            })
        } else {
            Err(EmptyRange)
        }
    }

    // The hunk with one suspect more, behind the others.
    pub fn add_suspect(self, source: Source, start: u32) -> Result<UnblamedHunk, SuspectFault>
        ensures { told_of result ≡ added_of source start (piece_of self) }
    {
        let range = self.range_in_blamed_file;
        let size = range.len();
        if self.has_suspect(source) {
            return Err(SuspectFault::SameCommit);
        }
        if start > FILE_LIMIT - size {
            return Err(SuspectFault::EmptyRange);
        }
        let mut suspects = self.suspects;
        if self.count == suspects.len() {
            return Err(SuspectFault::SuspectsFull);
        }
        suspects[self.count] = Suspect {
            source,
            range: Span {
                start,
                end: start + size,
            },
        };
        Ok(UnblamedHunk {
            range_in_blamed_file: range,
            suspects,
            count: self.count + 1,
        })
    }
}
