ghost use Rattle.std.specs.Prelude.{◌≡◌, ◌+◌, ◌&&◌, ◌==◌, nat_le};
ghost use Rattle.change.specs.Lists.{limit};
ghost use Rattle.rank.specs.Entries.{credited_after, continues, lengthened};
ghost use Rattle.std.proofs.Common.{rules, arith};
ghost use Rattle.std.proofs.lemmas.Bool.Decides.{nat_tests};

use crate::entry::BlameEntry;
use crate::joining::Joining;
use crate::ranking::Ranked;
use change::list::FILE_LIMIT;
use std::ops::Range;

// Entries rank by their start in the asked file.
impl Ranked for BlameEntry {
    ghost after = { credited_after };

    ghost total = { Prim.search rules };

    ghost transitive = { Prim.search rules };

    fn ranks_after(&self, other: &BlameEntry) -> bool {
        other.start_in_blamed_file < self.start_in_blamed_file
    }
}

// So many lines from the start on.
fn lines_from(start: u32, len: u32) -> Range<u64>
    ensures start { result.start ≡ start }
    ensures end { result.end ≡ start + len }
{
    let start = u64::from(start);
    start..start + u64::from(len)
}

impl BlameEntry {
    fn range_in_blamed_file(&self) -> Range<u64>
        ensures start { result.start ≡ self.now.start_in_blamed_file }
        ensures end { result.end ≡ self.now.start_in_blamed_file + self.now.len }
    {
        lines_from(self.start_in_blamed_file, self.len())
    }

    fn range_in_source_file(&self) -> Range<u64>
        ensures start { result.start ≡ self.now.start_in_source_file }
        ensures end { result.end ≡ self.now.start_in_source_file + self.now.len }
    {
        lines_from(self.start_in_source_file, self.len())
    }
}

// Whether the next lines start where the others end, and end within the file limit.
fn goes_on(lines: Range<u64>, next: Range<u64>) -> bool
    ensures { result ≡ (lines.end == next.start && nat_le next.end limit) }
{
    lines.end == next.start && next.end <= u64::from(FILE_LIMIT)
}

// An entry joins the one that goes on where it ends, in both files, of the same source.
impl Joining for BlameEntry {
    ghost joins = { continues };

    ghost joined = { lengthened };

    ghost rank = { Prim.search rules };

    ghost onward = { Prim.grind (arith, nat_tests) };

    ghost inward = { Prim.grind (arith, nat_tests) };

    ghost one_result = { Prim.grind (arith, Self.row.coded.inj) };

    fn joins_with(&self, other: &BlameEntry) -> bool {
        goes_on(self.range_in_blamed_file(), other.range_in_blamed_file())
            && goes_on(self.range_in_source_file(), other.range_in_source_file())
            && self.source == other.source
    }

    fn joined_with(&self, other: &BlameEntry) -> Option<BlameEntry> {
        if self.joins_with(other) {
            BlameEntry::new(
                self.start_in_blamed_file,
                self.start_in_source_file,
                self.len() + other.len(),
                self.source,
            )
        } else {
            None
        }
    }
}
