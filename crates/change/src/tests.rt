use crate::change::Change;
use crate::line_range::LineRange;
use crate::list::{BadList, FILE_LIMIT, Totals, check_list};
use crate::place::kept;
use crate::refusal::{Refusal, Told};
use crate::span::Span;
use crate::unmade::Unmade;
use crate::valid::ValidList;
use std::test::Fail;

fn unchanged(start: u32, end: u32) -> Change {
    Change::Unchanged(Span { start, end })
}

fn added(start: u32, end: u32, deleted: u32) -> Change {
    Change::AddedOrReplaced(Span { start, end }, deleted)
}

fn totals(new: u32, old: u32) -> Result<Totals, BadList> {
    Ok(Totals { new, old })
}

fn bad(position: usize) -> Result<Totals, BadList> {
    Err(BadList { position })
}

#[test]
fn lists_are_totalled(rt: HostRuntime) {
    assert_eq!(rt; check_list(&[]), totals(0, 0));
    assert_eq!(rt;
        check_list(&[unchanged(0, 4), added(4, 6, 1), unchanged(6, 10)]),
        totals(10, 9)
    );
    assert_eq!(rt; check_list(&[added(0, 2, 0)]), totals(2, 0));
    assert_eq!(rt; check_list(&[added(0, 2, 3)]), totals(2, 3));
    assert_eq!(rt; check_list(&[Change::Deleted(0, 2)]), totals(0, 2));
    assert_eq!(rt;
        check_list(&[unchanged(0, 3), Change::Deleted(3, 2)]),
        totals(3, 5)
    );
    assert_eq!(rt;
        check_list(&[
            Change::Deleted(0, 1),
            Change::Deleted(0, 2),
            unchanged(0, 1),
        ],),
        totals(1, 4)
    );
}

#[test]
fn the_first_bad_position_is_told(rt: HostRuntime) {
    assert_eq!(rt; check_list(&[unchanged(1, 2)]), bad(0));
    assert_eq!(rt; check_list(&[unchanged(0, 0)]), bad(0));
    assert_eq!(rt; check_list(&[unchanged(0, 3), unchanged(4, 5)]), bad(1));
    assert_eq!(rt; check_list(&[unchanged(0, 3), unchanged(2, 5)]), bad(1));
    assert_eq!(rt; check_list(&[unchanged(0, 3), added(5, 4, 0)]), bad(1));
    assert_eq!(rt;
        check_list(&[unchanged(0, 3), Change::Deleted(2, 1)]),
        bad(1)
    );
    assert_eq!(rt;
        check_list(&[unchanged(0, 3), Change::Deleted(4, 1)]),
        bad(1)
    );
    assert_eq!(rt;
        check_list(&[unchanged(0, 3), Change::Deleted(3, 0)]),
        bad(1)
    );
}

#[test]
fn totals_end_at_the_file_limit(rt: HostRuntime) {
    assert_eq!(rt;
        check_list(&[unchanged(0, FILE_LIMIT)]),
        totals(16_777_215, 16_777_215)
    );
    assert_eq!(rt; check_list(&[unchanged(0, 16_777_216)]), bad(0));
    assert_eq!(rt;
        check_list(&[added(0, FILE_LIMIT, 0)]),
        totals(16_777_215, 0)
    );
    assert_eq!(rt;
        check_list(&[added(0, 1, 0), unchanged(1, 16_777_216)]),
        bad(1)
    );
    assert_eq!(rt;
        check_list(&[Change::Deleted(0, FILE_LIMIT)]),
        totals(0, 16_777_215)
    );
    assert_eq!(rt; check_list(&[Change::Deleted(0, 16_777_216)]), bad(0));
    assert_eq!(rt;
        check_list(&[unchanged(0, FILE_LIMIT), Change::Deleted(16_777_215, 1)]),
        bad(1)
    );
    assert_eq!(rt;
        check_list(&[unchanged(0, 1), added(1, 2, 16_777_214)]),
        totals(2, 16_777_215)
    );
    assert_eq!(rt;
        check_list(&[unchanged(0, 1), added(1, 2, u32::MAX), unchanged(2, 3)]),
        bad(1)
    );
}

#[test]
fn kept_lines_have_a_place(rt: HostRuntime) {
    let list = [
        Change::Deleted(0, 2),
        unchanged(0, 4),
        added(4, 6, 1),
        unchanged(6, 10),
        Change::Deleted(10, 3),
    ];
    assert_eq!(rt; kept(&list, 0), Ok(Some(2)));
    assert_eq!(rt; kept(&list, 3), Ok(Some(5)));
    assert_eq!(rt; kept(&list, 4), Ok(None));
    assert_eq!(rt; kept(&list, 5), Ok(None));
    assert_eq!(rt; kept(&list, 6), Ok(Some(7)));
    assert_eq!(rt; kept(&list, 9), Ok(Some(10)));
    assert_eq!(rt; kept(&list, 10), Ok(None));
    assert_eq!(rt;
        kept(&[unchanged(0, 2), unchanged(3, 4)], 0),
        Err(BadList { position: 1 })
    );
}

#[test]
fn a_bad_list_has_number_four(rt: HostRuntime) {
    let refusal = BadList { position: 7 };
    assert_eq!(rt; refusal.number(), 4);
    assert!(rt; refusal.name() == "BadList");
}

#[test]
fn a_line_range_has_a_line(rt: HostRuntime) -> Result<(), Fail> {
    assert!(rt; LineRange::new(3, 3).is_none());
    assert!(rt; LineRange::new(4, 3).is_none());
    let Some(range) = LineRange::new(3, 5) else {
        return Err(Fail::new("no range"));
    };
    assert_eq!(rt; (range.start(), range.end(), range.len()), (3, 5, 2));
    Ok(())
}

#[test]
fn refusals_and_ranges_are_shown(rt: HostRuntime) -> Result<(), Fail> {
    let heap = rt.alloc();
    let refusal = format!(in heap; "{}", Told(BadList { position: 7 }))?;
    assert!(rt; refusal.as_str() == "4 BadList");
    let range = format!(in heap; "{}", Span { start: 3, end: 5 })?;
    assert!(rt; range.as_str() == "3..5");
    assert_eq!(rt; Span { start: 3, end: 5 }.len(), 2);
    assert_eq!(rt; Span { start: 5, end: 3 }.len(), 0);
    Ok(())
}

#[test]
fn a_valid_list_has_its_totals(rt: HostRuntime) -> Result<(), Fail> {
    let changes = [unchanged(0, 4), added(4, 6, 1), unchanged(6, 10)];
    let list = ValidList::new(&changes)?;
    assert_eq!(rt; list.totals, Totals { new: 10, old: 9 });
    assert_eq!(rt; list.changes.len(), 3);
    assert!(rt; ValidList::new(&changes[1..]).is_err());
    Ok(())
}

#[test]
fn want_of_memory_has_a_number(rt: HostRuntime) {
    let none: Unmade<BadList> = Unmade::OutOfMemory;
    assert_eq!(rt; none.number(), 255);
    assert!(rt; none.name() == "OutOfMemory");
    let refused = Unmade::Refused(BadList { position: 7 });
    assert_eq!(rt; refused.number(), 4);
    assert!(rt; refused.name() == "BadList");
}
