use crate::rows::rows;
use change::change::Change;
use change::change::Change::{AddedOrReplaced, Deleted, Unchanged};
use change::list::BadList;
use change::span::Span;
use change::unmade::Unmade;
use std::alloc::Global;
use std::test::Fail;

// (The tests of a crate cannot call those of another, so each that needs it has its own.)
fn span(start: u32, end: u32) -> Span {
    Span { start, end }
}

// The rows as text, one to a line.
fn shown(heap: Global, changes: &[Change]) -> Result<String, Fail> {
    let mut text = String::new(heap);
    for row in rows(heap, changes)?.as_slice() {
        let line = format!(in heap; "{row}\n")?;
        text.push_str(line.as_str())?;
    }
    Ok(text)
}

#[test]
fn set_between_kept(rt: HostRuntime) -> Result<(), Fail> {
    let list = [
        Unchanged(span(0, 4)),
        AddedOrReplaced(span(4, 6), 1),
        Unchanged(span(6, 10)),
    ];
    let text = shown(rt.alloc(), &list)?;
    assert_eq!(rt;
        text.as_str(),
        "lines 1-4       kept, lines 1-4 of the parent\nlines 5-6       set\nlines 7-10      kept, lines 6-9 of the parent\n"
    );
    Ok(())
}

#[test]
fn deletion_parts(rt: HostRuntime) -> Result<(), Fail> {
    let list = [Unchanged(span(0, 3)), Deleted(3, 2), Unchanged(span(3, 4))];
    let text = shown(rt.alloc(), &list)?;
    assert_eq!(rt;
        text.as_str(),
        "lines 1-3       kept, lines 1-3 of the parent\nline 4          kept, line 6 of the parent\n"
    );
    Ok(())
}

#[test]
fn neighbours_merge(rt: HostRuntime) -> Result<(), Fail> {
    let kept = shown(rt.alloc(), &[Unchanged(span(0, 2)), Unchanged(span(2, 5))])?;
    assert_eq!(rt;
        kept.as_str(),
        "lines 1-5       kept, lines 1-5 of the parent\n"
    );
    let set = shown(
        rt.alloc(),
        &[
            AddedOrReplaced(span(0, 2), 0),
            AddedOrReplaced(span(2, 3), 4),
        ],
    )?;
    assert_eq!(rt; set.as_str(), "lines 1-3       set\n");
    let none = shown(rt.alloc(), &[])?;
    assert_eq!(rt; none.as_str(), "");
    Ok(())
}

#[test]
fn gap_refused(rt: HostRuntime) -> Result<(), Fail> {
    match rows(rt.alloc(), &[Unchanged(span(0, 2)), Unchanged(span(3, 5))]) {
        Ok(_) => Err(Fail::new("a list with a gap is taken")),
        Err(fault) => {
            assert_eq!(rt; fault, Unmade::Refused(BadList { position: 1 }));
            Ok(())
        },
    }
}
