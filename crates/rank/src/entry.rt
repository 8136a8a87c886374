ghost use Rattle.std.specs.Prelude.{◌≡◌, ◌<◌, MatchOption};

use hunk::source::Source;

// Lines that are credited to a source: where they start in the asked file and in
// the source's, and how many they are, which is one or more.
#[derive(Clone, Copy, Debug, PartialEq, Eq)]
pub struct BlameEntry {
    pub start_in_blamed_file: u32,
    pub start_in_source_file: u32,
    len: u32,
    pub source: Source,
    ghost lines: { 0 < len },
}

impl BlameEntry {
    // The entry, if it has a line.
    pub fn new(
        start_in_blamed_file: u32,
        start_in_source_file: u32,
        len: u32,
        source: Source,
    ) -> Option<BlameEntry>
        ensures { MatchOption result (len ≡ 0) (λ e. (e.start_in_blamed_file ≡ start_in_blamed_file) × (e.start_in_source_file ≡ start_in_source_file) × (e.len ≡ len) × (e.source ≡ source)) }
    {
        if len == 0 {
            return None;
        }
        Some(BlameEntry {
            start_in_blamed_file,
            start_in_source_file,
            len,
            source,
        })
    }

    // How many lines the entry has.
    pub fn len(&self) -> u32
        ensures is { result ≡ self.now.len }
        ensures some { 0 < result }
    {
        self.len
    }
}
