ghost use Rattle.std.specs.Prelude.{◌≡◌, ◌+◌, ◌^◌, ◌<◌, ◌≤◌, Some, None, IsSome};
ghost use Rattle.std.specs.Option.{option_map};
ghost use Rattle.hunk.specs.Rows.{piece_of};
ghost use Rattle.pieces.specs.Offsets.{size_of};
ghost use Rattle.pieces.specs.Steps.{moves, holds, ends_in, step_of};
ghost use Rattle.pieces.specs.Walkers.{pieces_of, weight};

use crate::offset::Offset;
use change::change::Change;
use change::span::Span;
use either::Either;
use hunk::hunk::UnblamedHunk;
use hunk::source::Source;

// The pieces that a step is done with: two at most. (No `ArrayVec`: it needs no
// heap, but its `new` asks for a `Default` of the hunk, and there is no empty hunk:
// each has a line and a suspect.)
#[derive(Clone, Copy)]
pub enum Requeued {
    Nothing,
    One(UnblamedHunk),
    Two(UnblamedHunk, UnblamedHunk),
}

// What a step leaves: the hunk and the change still at hand, and the pieces.
#[derive(Clone, Copy)]
pub struct Step {
    pub hunk: Option<UnblamedHunk>,
    pub change: Option<Change>,
    pub requeued: Requeued,
}

fn contains(range: Span, line: u32) -> bool
    ensures { result ≡ holds range line }
{
    range.start <= line && line < range.end
}

// Whether the last line of `test` is in the range.
fn actual_end_in_range(test: Span, range: Span) -> bool
    ensures { result ≡ ends_in test range }
{
    range.start < test.end && test.end <= range.end
}

// The hunk with the parent in the suspect's place, shifted; one that can't go there stays.
fn passed(hunk: UnblamedHunk, suspect: Source, parent: Source, offset: Offset) -> UnblamedHunk
    ensures { piece_of result ≡ moves suspect parent offset (piece_of hunk) }
{
    hunk.get_range(suspect)
        .and_then(|range| offset.shifted(range.start))
        .and_then(|start| hunk.passed_blame(suspect, parent, start))
        .unwrap_or(hunk)
}

// The hunk is still at hand, and the change is used up.
fn keep(hunk: UnblamedHunk, requeued: Requeued) -> Step
    ensures { (result.hunk ≡ Some hunk) × (result.change ≡ None) × (result.requeued ≡ requeued) }
{
    Step {
        hunk: Some(hunk),
        change: None,
        requeued,
    }
}

// The hunk is done with; the change may matter to the next one.
fn done(change: Option<Change>, requeued: Requeued) -> Step
    ensures { (result.hunk ≡ None) × (result.change ≡ change) × (result.requeued ≡ requeued) }
{
    Step {
        hunk: None,
        change,
        requeued,
    }
}

// The suspect has nothing to do with the hunk, which is requeued as it came.
fn untouched(hunk: UnblamedHunk, change: Change) -> Step
    ensures { (result.hunk ≡ None) × (result.change ≡ Some change) × (result.requeued ≡ Requeued.One hunk) }
{
    done(Some(change), Requeued::One(hunk))
}

// Compares the hunk at hand with the change at hand. What is decided of the hunk
// is requeued as pieces; what may still meet a later change stays at hand.
pub(crate) fn process_change(
    offset: &mut Offset,
    suspect: Source,
    parent: Source,
    hunk: Option<UnblamedHunk>,
    change: Option<Change>,
) -> Step
    requires { size_of offset.old + weight change < 2 ^ 32 }
    ensures size { size_of offset.new ≤ size_of offset.old + weight change }
    ensures settles { IsSome result.hunk → result.change ≡ None }
    ensures piece { option_map piece_of result.hunk ≡ (step_of suspect parent offset.old (option_map piece_of hunk) change).piece }
    ensures change { result.change ≡ (step_of suspect parent offset.old (option_map piece_of hunk) change).change }
    ensures pieces { pieces_of result.requeued ≡ (step_of suspect parent offset.old (option_map piece_of hunk) change).out }
    ensures offset { offset.new ≡ (step_of suspect parent offset.old (option_map piece_of hunk) change).offset }
{
    match (hunk, change) {
        (Some(hunk), Some(Change::Unchanged(unchanged))) => {
            let Some(range) = hunk.get_range(suspect) else {
                return untouched(hunk, Change::Unchanged(unchanged));
            };
            match (
                contains(range, unchanged.start),
                actual_end_in_range(unchanged, range),
            ) {
                // Changes come right behind it.
                (_, true) => keep(hunk, Requeued::Nothing),
                (true, false) => done(
                    Some(Change::Unchanged(unchanged)),
                    Requeued::One(passed(hunk, suspect, parent, *offset)),
                ),
                (false, false) => {
                    if unchanged.end <= range.start {
                        // The changes catch up with the hunk.
                        keep(hunk, Requeued::Nothing)
                    } else {
                        done(
                            Some(Change::Unchanged(unchanged)),
                            Requeued::One(passed(hunk, suspect, parent, *offset)),
                        )
                    }
                }
            }
        }
        (Some(hunk), Some(Change::AddedOrReplaced(added, deleted))) => {
            let Some(range) = hunk.get_range(suspect) else {
                return untouched(hunk, Change::AddedOrReplaced(added, deleted));
            };
            match (
                contains(range, added.start),
                actual_end_in_range(added, range),
            ) {
                (true, true) => match hunk.split_at(suspect, added.start) {
                    Either::Left(hunk) => {
                        offset.pass_added(added, deleted);
                        match hunk.split_at(suspect, added.end) {
                            Either::Left(hunk) => done(None, Requeued::One(hunk)),
                            Either::Right((blamed, after)) => keep(after, Requeued::One(blamed)),
                        }
                    }
                    Either::Right((before, after)) => {
                        let moved = passed(before, suspect, parent, *offset);
                        offset.pass_added(added, deleted);
                        match after.split_at(suspect, added.end) {
                            Either::Left(hunk) => done(None, Requeued::Two(moved, hunk)),
                            Either::Right((blamed, after)) => keep(
                                after,
                                Requeued::Two(moved, blamed),
                            ),
                        }
                    }
                },
                (true, false) => match hunk.split_at(suspect, added.start) {
                    Either::Left(hunk) => done(
                        Some(Change::AddedOrReplaced(added, deleted)),
                        Requeued::One(hunk),
                    ),
                    Either::Right((before, after)) => {
                        let before = passed(before, suspect, parent, *offset);
                        done(
                            Some(Change::AddedOrReplaced(added, deleted)),
                            Requeued::Two(before, after),
                        )
                    }
                },
                (false, true) => {
                    offset.pass_added(added, deleted);
                    match hunk.split_at(suspect, added.end) {
                        Either::Left(hunk) => done(None, Requeued::One(hunk)),
                        Either::Right((blamed, after)) => keep(after, Requeued::One(blamed)),
                    }
                }
                (false, false) => {
                    if added.end <= range.start {
                        offset.pass_added(added, deleted);
                        keep(hunk, Requeued::Nothing)
                    } else if range.end <= added.start {
                        done(
                            Some(Change::AddedOrReplaced(added, deleted)),
                            Requeued::One(passed(hunk, suspect, parent, *offset)),
                        )
                    } else {
                        done(
                            Some(Change::AddedOrReplaced(added, deleted)),
                            Requeued::One(hunk),
                        )
                    }
                }
            }
        }
        (Some(hunk), Some(Change::Deleted(line, deleted))) => {
            let Some(range) = hunk.get_range(suspect) else {
                return untouched(hunk, Change::Deleted(line, deleted));
            };
            if line < range.start {
                offset.sub_assign(deleted);
                keep(hunk, Requeued::Nothing)
            } else if line < range.end {
                match hunk.split_at(suspect, line) {
                    Either::Left(hunk) => {
                        offset.sub_assign(deleted);
                        keep(hunk, Requeued::Nothing)
                    }
                    Either::Right((before, after)) => {
                        let before = passed(before, suspect, parent, *offset);
                        offset.sub_assign(deleted);
                        keep(after, Requeued::One(before))
                    }
                }
            } else {
                done(
                    Some(Change::Deleted(line, deleted)),
                    Requeued::One(passed(hunk, suspect, parent, *offset)),
                )
            }
        }
        (Some(hunk), None) => done(None, Requeued::One(passed(hunk, suspect, parent, *offset))),
        (None, Some(Change::Unchanged(_))) => done(None, Requeued::Nothing),
        (None, Some(Change::AddedOrReplaced(added, deleted))) => {
            offset.pass_added(added, deleted);
            done(None, Requeued::Nothing)
        }
        (None, Some(Change::Deleted(_, deleted))) => {
            offset.sub_assign(deleted);
            done(None, Requeued::Nothing)
        }
        (None, None) => done(None, Requeued::Nothing),
    }
}
