ghost use Rattle.std.specs.Prelude.{◌≡◌, [], IfOk};
ghost use Rattle.ranges.specs.Adds.{add_of, add_all_of, AskedToo, AllAskedToo};
ghost use Rattle.ranges.specs.Ranges.{ranges_of, Made};

use crate::blame_ranges::BlameRanges;
use crate::fault::{BadEntry, RangeFault};
use crate::one_based::OneBased;
use crate::rows::Rows;
use change::unmade::Unmade;
use std::alloc::{AllocError, Global};

impl BlameRanges {
    // The whole file, with room for 64 ranges.
    pub fn whole_file(heap: Global) -> Result<BlameRanges, AllocError>
        ensures { IfOk result (λ b. ranges_of b ≡ []) }
    {
        let ranges = Rows::new(heap)?;
        Ok(BlameRanges { ranges })
    }

    // The lines alone. (It differs from the next in what is added; both are gix-blame's.)
    pub fn from_one_based_inclusive_range(
        heap: Global,
        lines: OneBased,
    ) -> Result<BlameRanges, Unmade<RangeFault>>
        ensures is { Made (add_of [] lines.first lines.last) result }
        ensures lines { IfOk result (λ b. AskedToo [] lines.first lines.last (ranges_of b)) }
    {
        let mut ranges = BlameRanges::whole_file(heap)?;
        ranges
            .add_one_based_inclusive_range(lines)
            .map_err(Unmade::Refused)?;
        Ok(ranges)
    }

    // Those of a list; the whole file of a list of none.
    pub fn from_one_based_inclusive_ranges(
        heap: Global,
        list: &[OneBased],
    ) -> Result<BlameRanges, Unmade<BadEntry>>
        ensures is { Made (add_all_of [] list.now) result }
        ensures lines { IfOk result (λ b. AllAskedToo [] list.now (ranges_of b)) }
    {
        let mut ranges = BlameRanges::whole_file(heap)?;
        ranges
            .add_one_based_inclusive_ranges(list)
            .map_err(Unmade::Refused)?;
        Ok(ranges)
    }
}
