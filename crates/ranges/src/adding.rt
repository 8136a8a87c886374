ghost use Rattle.std.specs.Prelude.{◌≡◌, ◌≤◌, [], length, Ok, IfOk, OnOk};
ghost use Rattle.rank.specs.Tables.{items_of};
ghost use Rattle.ranges.specs.Spans.{span_of, spans, Apart};
ghost use Rattle.ranges.specs.Adds.{plain_of, zero_based_of, merge_of, add_of, answer_of, then_of, AskedToo, add_all_of, AllAskedToo};
ghost use Rattle.ranges.specs.Ranges.{rows_of, ranges_of};

use crate::blame_ranges::BlameRanges;
use crate::fault::{BadEntry, RangeFault};
use crate::held::copy;
use crate::merging::widen;
use crate::one_based::OneBased;
use crate::rows::Rows;
use change::line_range::LineRange;
use rank::insertion::insert;
use rank::table::Table;
use rank::touching::drop_touched;
use std::alloc::{AllocError, Global};

// The lines as a range.
fn inclusive_to_zero_based_exclusive(lines: OneBased) -> Result<LineRange, RangeFault>
    ensures { plain_of result ≡ zero_based_of lines.first lines.last }
{
    let start = lines.first.checked_sub(1).ok_or(RangeFault::ZeroLine)?;
    LineRange::new(start, lines.last).ok_or(RangeFault::EmptyRange)
}

// Puts these rows in place of the table's. (By a loop: a table takes elements one
// by one, into the room that it has.)
fn refill(table: &mut Table<LineRange>, rows: &[LineRange])
    requires { length rows.now ≤ table.old.limit }
    ensures items { items_of table.new ≡ rows.now }
    ensures limit { table.new.limit ≡ table.old.limit }
{
    table.clear();
    for row in rows {
        let _ = table.push(*row);
    }
}

impl Rows {
    // None, with room for 64.
    pub fn new(heap: Global) -> Result<Rows, AllocError>
        ensures { IfOk result (λ r. rows_of r ≡ []) }
    {
        let table = Table::new(heap, 64)?;
        Ok(Rows { table })
    }

    // Merges the range with all rows that it touches. Where there is no room for
    // it, it touches none, so all rows are still there.
    fn merge(&mut self, range: LineRange) -> Result<(), RangeFault>
        ensures answer { result ≡ answer_of (merge_of (span_of range) (rows_of self.old)) }
        ensures rows { rows_of self.new ≡ then_of (rows_of self.old) (merge_of (span_of range) (rows_of self.old)) }
    {
        let wide = widen(range, self.table.as_slice());
        drop_touched(&mut self.table, &range);
        insert(&mut self.table, wide).map_err(|_| RangeFault::RangesFull)
    }

    pub fn add(&mut self, lines: OneBased) -> Result<(), RangeFault>
        ensures answer { result ≡ answer_of (add_of (rows_of self.old) lines.first lines.last) }
        ensures rows { rows_of self.new ≡ then_of (rows_of self.old) (add_of (rows_of self.old) lines.first lines.last) }
    {
        let range = inclusive_to_zero_based_exclusive(lines)?;
        self.merge(range)
    }

    // Adds each of the list in turn, up to the first that is refused.
    pub fn add_all(&mut self, list: &[OneBased]) -> Result<(), BadEntry>
        ensures answer { result ≡ answer_of (add_all_of (rows_of self.old) list.now) }
        ensures rows { OnOk result (add_all_of (rows_of self.old) list.now ≡ Ok (rows_of self.new)) }
    {
        for (position, lines) in list.iter().enumerate() {
            self.add(*lines)
                .map_err(|fault| BadEntry { position, fault })?;
        }
        Ok(())
    }

    // Puts these in place of the rows.
    fn put_back(&mut self, rows: &[LineRange])
        requires few { length rows.now ≤ 64 }
        requires apart { Apart (spans rows.now) }
        ensures { rows_of self.new ≡ spans rows.now }
    {
        refill(&mut self.table, rows);
    }
}

impl BlameRanges {
    // Adds lines that take the place of the whole file, or merge with all ranges
    // that they touch.
    pub fn add_one_based_inclusive_range(&mut self, lines: OneBased) -> Result<(), RangeFault>
        ensures answer { result ≡ answer_of (add_of (ranges_of self.old) lines.first lines.last) }
        ensures ranges { ranges_of self.new ≡ then_of (ranges_of self.old) (add_of (ranges_of self.old) lines.first lines.last) }
        ensures lines { OnOk result (AskedToo (ranges_of self.old) lines.first lines.last (ranges_of self.new)) }
    {
        self.ranges.add(lines)
    }

    // Adds each of the list in turn. The first that is refused refuses the list,
    // and the ranges are then as they were.
    pub fn add_one_based_inclusive_ranges(&mut self, list: &[OneBased]) -> Result<(), BadEntry>
        ensures answer { result ≡ answer_of (add_all_of (ranges_of self.old) list.now) }
        ensures ranges { ranges_of self.new ≡ then_of (ranges_of self.old) (add_all_of (ranges_of self.old) list.now) }
        ensures lines { OnOk result (AllAskedToo (ranges_of self.old) list.now (ranges_of self.new)) }
    {
        let before = copy(self.ranges.table.as_slice());
        let added = self.ranges.add_all(list);
        if added.is_err() {
            self.ranges.put_back(&before.rows[..before.count]);
        }
        added
    }
}
