use crate::case::read_case;
use crate::judge::{Verdict, verdict_on};
use crate::show::Rows;
use change::change::Change;
use change::span::Span;
use hunk::row::HunkRow;
use hunk::source::Source;
use hunk::suspect::Suspect;
use std::alloc::Global;
use std::test::Fail;

const LINE: &str =
    "1 2 ; H 1 3 7 1 1 0 4 ; C 3 U 0 1 A 1 3 1 D 3 2 ; R 2 3 4 1 2 0 1 4 7 2 1 1 4 9 5 8";

// (The tests of a crate cannot call those of another, so each that needs it has its own.)
fn suspect(commit: u32, start: u32, end: u32) -> Suspect {
    Suspect {
        source: Source { commit },
        range: Span { start, end },
    }
}

fn row(start: u32, end: u32, first: Suspect, second: Option<Suspect>) -> HunkRow {
    let mut suspects = [Suspect::default(); 8];
    let mut count = 1;
    suspects[0] = first;
    if let Some(second) = second {
        suspects[1] = second;
        count = 2;
    }
    HunkRow {
        range_in_blamed_file: Span { start, end },
        suspects,
        count,
    }
}

#[test]
fn a_case_has_its_parts(rt: HostRuntime) -> Result<(), Fail> {
    let case = read_case(rt.alloc(), LINE.as_bytes())?;
    assert_eq!(rt; case.suspect, Source { commit: 1 });
    assert_eq!(rt; case.parent, Source { commit: 2 });
    assert_eq!(rt;
        case.rows.as_slice(),
        [row(3, 7, suspect(1, 0, 4), None)].as_slice()
    );
    assert_eq!(rt;
        case.changes.as_slice(),
        [
            Change::Unchanged(Span { start: 0, end: 1 }),
            Change::AddedOrReplaced(Span { start: 1, end: 3 }, 1),
            Change::Deleted(3, 2),
        ]
        .as_slice()
    );
    assert_eq!(rt;
        case.expected.as_slice(),
        [
            row(3, 4, suspect(2, 0, 1), None),
            row(4, 7, suspect(1, 1, 4), Some(suspect(9, 5, 8))),
        ]
        .as_slice()
    );
    Ok(())
}

// Whether the line is read as a case.
fn reads(heap: Global, line: &str) -> bool {
    read_case(heap, line.as_bytes()).is_ok()
}

const CASES: [&str; 3] = [
    "0 4294967295 ; H 0 ; C 0 ; R 0",
    "1 2 ; H 0 ; C 0 ; R 1 0 1 0",
    "1 2 ; H 0 ; C 0 ; R 1 0 1 8 1 0 1 2 0 1 3 0 1 4 0 1 5 0 1 6 0 1 7 0 1 8 0 1",
];

// Empty; a missing token; missing rows; missing changes; a space at the end; a token too
// many; two spaces; an unknown change; a needless zero; a number too large; a ninth suspect.
const NO_CASES: [&str; 11] = [
    "",
    "1 2 ; H 0 ; C 0 ; R 1 0 1",
    "1 2 ; H 4294967295 ; C 0 ; R 0",
    "1 2 ; H 0 ; C 4294967295",
    "1 2 ; H 0 ; C 0 ; R 0 ",
    "1 2 ; H 0 ; C 0 ; R 0 1",
    "1  2 ; H 0 ; C 0 ; R 0",
    "1 2 ; H 0 ; C 1 X 0 1 ; R 0",
    "1 02 ; H 0 ; C 0 ; R 0",
    "1 4294967296 ; H 0 ; C 0 ; R 0",
    "1 2 ; H 0 ; C 0 ; R 1 0 1 9 1 0 1 2 0 1 3 0 1 4 0 1 5 0 1 6 0 1 7 0 1 8 0 1 9 0 1",
];

#[test]
fn lines_in_form_and_out_of_it(rt: HostRuntime) {
    for line in CASES {
        assert!(rt; reads(rt.alloc(), line), "{}", line);
    }
    for line in NO_CASES {
        assert!(rt; !reads(rt.alloc(), line), "{}", line);
    }
}

#[test]
fn rows_are_compared_and_shown(rt: HostRuntime) -> Result<(), Fail> {
    let heap = rt.alloc();
    let first = row(3, 4, suspect(2, 0, 1), None);
    let second = row(4, 7, suspect(1, 1, 4), Some(suspect(9, 5, 8)));
    let written = vec![in heap; first, second]?;
    assert!(rt; matches!(verdict_on(written, &[first, second]), Verdict::Agrees));
    let written = vec![in heap; first]?;
    assert!(rt; matches!(verdict_on(written, &[first, second]), Verdict::Differs(_)));
    let mut left_over = first;
    left_over.suspects[1] = suspect(9, 5, 8);
    let written = vec![in heap; left_over]?;
    assert!(rt; matches!(verdict_on(written, &[first]), Verdict::Differs(_)));
    let shown = format!(in heap; "{}", Rows(&[second, left_over]))?;
    assert!(rt; shown.as_str() == "2 rows: 4..7 [1:1..4, 9:5..8] 3..4 [2:0..1, ?9:5..8]");
    Ok(())
}
