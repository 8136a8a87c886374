use crate::blame_ranges::BlameRanges;
use crate::fault::{BadEntry, RangeFault};
use crate::one_based::OneBased;
use change::refusal::Refusal;
use change::span::Span;
use std::test::Fail;

fn lines(first: u32, last: u32) -> OneBased {
    OneBased { first, last }
}

// (The tests of a crate cannot call those of another, so each that needs it has its own.)
fn span(start: u32, end: u32) -> Span {
    Span { start, end }
}

#[test]
fn ranges_merge_and_are_cut(rt: HostRuntime) -> Result<(), Fail> {
    let heap = rt.alloc();
    let touching = BlameRanges::from_one_based_inclusive_ranges(heap, &[lines(1, 3), lines(4, 6)])?;
    let one = touching.to_zero_based_exclusive_ranges(100);
    assert_eq!(rt; one.as_slice(), &[span(0, 6)][..]);

    let apart = BlameRanges::from_one_based_inclusive_ranges(heap, &[lines(5, 6), lines(1, 3)])?;
    let two = apart.to_zero_based_exclusive_ranges(5);
    assert_eq!(rt; two.as_slice(), &[span(0, 3), span(4, 5)][..]);
    assert_eq!(rt; apart.to_zero_based_exclusive_ranges(4).as_slice().len(), 1);

    let whole = BlameRanges::whole_file(heap)?;
    assert_eq!(rt; whole.to_zero_based_exclusive_ranges(0).as_slice().len(), 0);
    let all = whole.to_zero_based_exclusive_ranges(7);
    assert_eq!(rt; all.as_slice(), &[span(0, 7)][..]);
    Ok(())
}

#[test]
fn ranges_are_refused(rt: HostRuntime) -> Result<(), Fail> {
    let mut ranges = BlameRanges::whole_file(rt.alloc())?;
    assert_eq!(rt;
        ranges.add_one_based_inclusive_range(lines(0, 0)),
        Err(RangeFault::ZeroLine)
    );
    assert_eq!(rt;
        ranges.add_one_based_inclusive_range(lines(3, 2)),
        Err(RangeFault::EmptyRange)
    );
    assert!(rt; ranges.is_whole_file());
    for k in 0..64u32 {
        ranges.add_one_based_inclusive_range(lines(2 * k + 1, 2 * k + 1))?;
    }
    assert_eq!(rt;
        ranges.add_one_based_inclusive_range(lines(200, u32::MAX)),
        Err(RangeFault::RangesFull)
    );
    assert_eq!(rt;
        ranges.add_one_based_inclusive_ranges(&[lines(2, 2), lines(200, 200), lines(300, 300)]),
        Err(BadEntry {
            position: 2,
            fault: RangeFault::RangesFull,
        })
    );
    assert_eq!(rt; ranges.len(), 64);
    ranges.add_one_based_inclusive_range(lines(2, 2))?;
    assert_eq!(rt; ranges.len(), 63);
    assert_eq!(rt; RangeFault::RangesFull.number(), 3);
    Ok(())
}
