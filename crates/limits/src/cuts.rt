use crate::hunks::source;
use change::change::Change;
use change::list::{BadList, FILE_LIMIT};
use change::span::Span;
use hunk::row::HunkRow;
use hunk::suspect::Suspect;
use pieces::fault::{ListFault, ProcessFault};
use pieces::process::process_changes;
use std::alloc::{AllocError, Global};
use std::test::Fail;

// (The tests of a crate cannot call those of another, so each that needs it has its own.)
fn range(start: u32, end: u32) -> Span {
    Span { start, end }
}

// A row with one suspect.
fn row(asked: u32, commit: u32, start: u32, size: u32) -> HunkRow {
    let mut suspects = [Suspect::default(); 8];
    suspects[0] = Suspect {
        source: source(commit),
        range: range(start, start.saturating_add(size)),
    };
    HunkRow {
        range_in_blamed_file: range(asked, asked.saturating_add(size)),
        suspects,
        count: 1,
    }
}

fn table(heap: Global, len: usize) -> Result<Vec<HunkRow>, AllocError> {
    vec![in heap; row(7, 7, 7, 7); len]
}

#[test]
fn a_replacement_and_a_deletion(rt: HostRuntime) -> Result<(), Fail> {
    let mut out = table(rt.alloc(), 4)?;
    let list = [
        Change::Unchanged(range(0, 4)),
        Change::AddedOrReplaced(range(4, 6), 1),
        Change::Unchanged(range(6, 10)),
    ];
    let n = process_changes(&[row(0, 1, 0, 10)], &list, source(1), source(2), &mut out);
    assert_eq!(rt; n, Ok(3));
    assert!(rt; out.len() == 4);
    assert_eq!(rt; out[0], row(0, 2, 0, 4));
    assert_eq!(rt; out[1], row(4, 1, 4, 2));
    assert_eq!(rt; out[2], row(6, 2, 5, 4));
    assert_eq!(rt; out[3], row(7, 7, 7, 7));
    Ok(())
}

#[test]
fn refusals_in_their_order(rt: HostRuntime) -> Result<(), Fail> {
    let mut out = table(rt.alloc(), 1)?;
    let bad = [Change::Unchanged(range(1, 2))];
    let no_hunk = row(0, 1, 0, 0);
    assert_eq!(rt;
        process_changes(
            &[row(0, 1, 0, 1), no_hunk],
            &bad,
            source(1),
            source(1),
            &mut out,
        ),
        Err(ProcessFault::EmptyRange(1))
    );
    assert_eq!(rt;
        process_changes(&[row(0, 1, 0, 9)], &bad, source(1), source(1), &mut out),
        Err(ProcessFault::SameCommit)
    );
    assert_eq!(rt;
        process_changes(&[row(0, 1, 0, 9)], &bad, source(1), source(2), &mut out),
        Err(ProcessFault::List(ListFault::BadList(BadList { position: 0 })))
    );
    let list = [
        Change::Unchanged(range(0, 2)),
        Change::Deleted(2, 1),
        Change::Unchanged(range(2, 4)),
    ];
    assert_eq!(rt;
        process_changes(
            &[row(0, 3, 0, 9), row(0, 1, 2, 3)],
            &list,
            source(1),
            source(2),
            &mut out,
        ),
        Err(ProcessFault::HunkOutside(1))
    );
    assert_eq!(rt;
        process_changes(&[row(0, 1, 0, 4)], &list, source(1), source(2), &mut out),
        Err(ProcessFault::HunksFull)
    );
    assert!(rt; out.len() == 1);
    assert_eq!(rt; out[0], row(7, 7, 7, 7));
    assert_eq!(rt;
        process_changes(&[row(0, 1, 0, 2)], &list, source(1), source(2), &mut out),
        Ok(1)
    );
    assert!(rt; out.len() == 1);
    assert_eq!(rt; out[0], row(0, 2, 0, 2));
    Ok(())
}

// A line set, and a line kept, so many times.
fn striped(heap: Global, pairs: u32) -> Result<Vec<Change>, AllocError> {
    let mut list = Vec::new(heap);
    for i in 0..pairs {
        let at = i.saturating_mul(2);
        list.push(Change::AddedOrReplaced(range(at, at.saturating_add(1)), 0))?;
        list.push(Change::Unchanged(range(at.saturating_add(1), at.saturating_add(2))))?;
    }
    Ok(list)
}

#[test]
fn two_hundred_and_fifty_six_pieces(rt: HostRuntime) -> Result<(), Fail> {
    let heap = rt.alloc();
    let mut out = table(heap, 300)?;
    let list = striped(heap, 200)?;
    assert_eq!(rt;
        process_changes(&[row(0, 1, 0, 256)], &list, source(1), source(2), &mut out),
        Ok(256)
    );
    assert_eq!(rt;
        process_changes(&[row(0, 1, 0, 257)], &list, source(1), source(2), &mut out),
        Err(ProcessFault::HunksFull)
    );
    let mut short = table(heap, 255)?;
    assert_eq!(rt;
        process_changes(
            &[row(0, 1, 0, 255)],
            &list,
            source(1),
            source(2),
            &mut short,
        ),
        Ok(255)
    );
    assert_eq!(rt;
        process_changes(
            &[row(0, 1, 0, 256)],
            &list,
            source(1),
            source(2),
            &mut short,
        ),
        Err(ProcessFault::HunksFull)
    );
    Ok(())
}

#[test]
fn five_hundred_and_twelve_changes(rt: HostRuntime) -> Result<(), Fail> {
    let heap = rt.alloc();
    let mut out = table(heap, 2)?;
    let mut list = striped(heap, 256)?;
    assert_eq!(rt;
        process_changes(&[row(0, 1, 0, 2)], &list, source(1), source(2), &mut out),
        Ok(2)
    );
    list.push(Change::Deleted(512, 1))?;
    assert_eq!(rt;
        process_changes(&[row(0, 1, 0, 2)], &list, source(1), source(2), &mut out),
        Err(ProcessFault::List(ListFault::ListFull))
    );
    Ok(())
}

#[test]
fn the_end_of_the_longest_file(rt: HostRuntime) -> Result<(), Fail> {
    let mut out = table(rt.alloc(), 2)?;
    let list = [Change::Unchanged(range(0, FILE_LIMIT))];
    assert_eq!(rt;
        process_changes(
            &[row(0, 1, 16_777_214, 1)],
            &list,
            source(1),
            source(2),
            &mut out,
        ),
        Ok(1)
    );
    assert!(rt; out.len() == 2);
    assert_eq!(rt; out[0], row(0, 2, 16_777_214, 1));
    assert_eq!(rt;
        process_changes(
            &[row(0, 1, 16_777_215, 1)],
            &list,
            source(1),
            source(2),
            &mut out,
        ),
        Err(ProcessFault::EmptyRange(0))
    );
    assert_eq!(rt;
        process_changes(
            &[row(16_777_215, 1, 0, 1)],
            &list,
            source(1),
            source(2),
            &mut out,
        ),
        Err(ProcessFault::EmptyRange(0))
    );
    Ok(())
}

#[test]
fn a_parent_that_is_named_already(rt: HostRuntime) -> Result<(), Fail> {
    let mut out = table(rt.alloc(), 2)?;
    let mut both = row(0, 1, 4, 2);
    both.suspects[1] = Suspect {
        source: source(2),
        range: range(9, 11),
    };
    both.count = 2;
    let list = [Change::Deleted(0, 3), Change::Unchanged(range(0, 8))];
    assert_eq!(rt;
        process_changes(&[both], &list, source(1), source(2), &mut out),
        Ok(1)
    );
    assert!(rt; out.len() == 2);
    assert_eq!(rt; out[0], row(0, 2, 9, 2));
    Ok(())
}
