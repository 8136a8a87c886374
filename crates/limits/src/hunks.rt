use change::refusal::Refusal;
use change::span::Span;
use either::Either;
use hunk::fault::{EmptyRange, SuspectFault};
use hunk::hunk::UnblamedHunk;
use hunk::row::HunkRow;
use hunk::source::Source;
use hunk::suspect::Suspect;
use std::test::Fail;

pub(crate) fn source(commit: u32) -> Source {
    Source { commit }
}

// (The tests of a crate cannot call those of another, so each that needs it has its own.)
fn suspect(commit: u32, start: u32, end: u32) -> Suspect {
    Suspect {
        source: source(commit),
        range: Span { start, end },
    }
}

// The row of two suspects, of which `count` are in use.
fn row(start: u32, end: u32, first: Suspect, second: Suspect, count: usize) -> HunkRow {
    let none = Suspect::default();
    HunkRow {
        range_in_blamed_file: Span { start, end },
        suspects: [first, second, none, none, none, none, none, none],
        count,
    }
}

fn made(start: u32, end: u32) -> Result<UnblamedHunk, Fail> {
    UnblamedHunk::new(Span { start, end }, source(1)).map_err(|_| Fail::new("no hunk"))
}

fn grown(hunk: UnblamedHunk, commit: u32, start: u32) -> Result<UnblamedHunk, Fail> {
    hunk.add_suspect(source(commit), start)
        .map_err(|_| Fail::new("no suspect"))
}

fn refused(hunk: UnblamedHunk, commit: u32, start: u32) -> Option<SuspectFault> {
    hunk.add_suspect(source(commit), start).err()
}

#[test]
fn eight_suspects_and_no_ninth(rt: HostRuntime) -> Result<(), Fail> {
    let mut hunk = made(10, 13)?;
    for commit in 2..9 {
        hunk = grown(hunk, commit, commit)?;
    }
    assert_eq!(rt; refused(hunk, 9, 0), Some(SuspectFault::SuspectsFull));
    assert_eq!(rt; refused(hunk, 9, u32::MAX), Some(SuspectFault::EmptyRange));
    assert_eq!(rt; refused(hunk, 8, u32::MAX), Some(SuspectFault::SameCommit));
    assert_eq!(rt; hunk.get_range(source(8)), Some(Span { start: 8, end: 11 }));
    assert!(rt; !hunk.has_suspect(source(9)));
    Ok(())
}

#[test]
fn ranges_end_at_the_file_limit(rt: HostRuntime) -> Result<(), Fail> {
    assert!(rt; UnblamedHunk::new(Span { start: 3, end: 3 }, source(1)).is_err());
    assert!(rt; UnblamedHunk::new(Span { start: 4, end: 3 }, source(1)).is_err());
    assert!(rt;
        UnblamedHunk::new(
            Span {
                start: 0,
                end: 16_777_216,
            },
            source(1),
        )
        .is_err()
    );
    made(0, 16_777_215)?;
    let hunk = made(0, 3)?;
    grown(hunk, 2, 16_777_212)?;
    assert_eq!(rt;
        refused(hunk, 2, 16_777_213),
        Some(SuspectFault::EmptyRange)
    );
    Ok(())
}

#[test]
fn rows_that_are_no_hunk(rt: HostRuntime) {
    let first = suspect(1, 10, 13);
    let second = suspect(2, 5, 8);
    assert!(rt; row(10, 13, first, second, 2).hunk().is_some());
    assert!(rt; row(10, 10, suspect(1, 10, 10), second, 1).hunk().is_none());
    assert!(rt; row(10, 13, first, second, 0).hunk().is_none());
    assert!(rt; row(10, 13, first, second, 9).hunk().is_none());
    assert!(rt; row(10, 13, first, suspect(1, 5, 8), 2).hunk().is_none());
    assert!(rt; row(10, 13, first, suspect(2, 5, 9), 2).hunk().is_none());
    assert!(rt;
        row(10, 13, first, suspect(2, 16_777_213, 16_777_216), 2)
            .hunk()
            .is_none()
    );
}

#[test]
fn zeros_stand_behind_the_suspects(rt: HostRuntime) -> Result<(), Fail> {
    let first = suspect(1, 10, 13);
    let Some(hunk) = row(10, 13, first, suspect(1, 9, 3), 1).hunk() else {
        return Err(Fail::new("no hunk"));
    };
    assert_eq!(rt;
        HunkRow::from(hunk),
        row(10, 13, first, suspect(0, 0, 0), 1)
    );
    Ok(())
}

#[test]
fn hunks_are_split_inside(rt: HostRuntime) -> Result<(), Fail> {
    let hunk = grown(made(10, 13)?, 2, 5)?;
    assert!(rt; matches!(hunk.split_at(source(2), 5), Either::Left(_)));
    assert!(rt; matches!(hunk.split_at(source(2), 8), Either::Left(_)));
    assert!(rt; matches!(hunk.split_at(source(3), 6), Either::Left(_)));
    let Either::Right((before, after)) = hunk.split_at(source(2), 6) else {
        return Err(Fail::new("not split"));
    };
    assert_eq!(rt;
        HunkRow::from(before),
        row(10, 11, suspect(1, 10, 11), suspect(2, 5, 6), 2)
    );
    assert_eq!(rt;
        HunkRow::from(after),
        row(11, 13, suspect(1, 11, 13), suspect(2, 6, 8), 2)
    );
    Ok(())
}

#[test]
fn blame_is_passed(rt: HostRuntime) -> Result<(), Fail> {
    let hunk = grown(made(10, 13)?, 2, 5)?;
    let Some(renamed) = hunk.passed_blame(source(1), source(3), 7) else {
        return Err(Fail::new("not passed"));
    };
    assert_eq!(rt;
        HunkRow::from(renamed),
        row(10, 13, suspect(3, 7, 10), suspect(2, 5, 8), 2)
    );
    let Some(dropped) = hunk.passed_blame(source(1), source(2), 7) else {
        return Err(Fail::new("not passed"));
    };
    assert_eq!(rt;
        HunkRow::from(dropped),
        row(10, 13, suspect(2, 5, 8), suspect(0, 0, 0), 1)
    );
    assert!(rt; hunk.passed_blame(source(3), source(4), 7).is_none());
    assert!(rt; hunk.passed_blame(source(1), source(1), 7).is_none());
    assert!(rt;
        hunk.passed_blame(source(1), source(3), 16_777_213)
            .is_none()
    );
    Ok(())
}

#[test]
fn refusals_have_numbers(rt: HostRuntime) {
    assert_eq!(rt; EmptyRange.number(), 2);
    assert_eq!(rt; SuspectFault::EmptyRange.number(), 2);
    assert_eq!(rt; SuspectFault::SameCommit.number(), 6);
    assert_eq!(rt; SuspectFault::SuspectsFull.number(), 8);
    assert!(rt; EmptyRange.name() == "EmptyRange");
    assert!(rt; SuspectFault::SuspectsFull.name() == "SuspectsFull");
}
