ghost use Rattle.std.specs.Prelude.{◌≡◌, ℕ, ◌≤◌, IfSome, codes};
ghost use Rattle.change.specs.Lists.{begins, step_of, checked, Judged, Within};

use crate::change::Change;
use crate::refusal::Refusal;
use crate::span::Span;

// The most lines that a file may have.
pub const FILE_LIMIT: u32 = 16_777_215;

// How many lines a list has in the commit's file, and in the parent's.
#[derive(Clone, Copy, Debug, PartialEq, Eq, Default)]
pub struct Totals {
    pub new: u32,
    pub old: u32,
}

// The list breaks a rule, first at this position.
#[derive(Clone, Copy, Debug, PartialEq, Eq)]
pub struct BadList {
    pub position: usize,
}

impl Refusal for BadList {
    ghost number = { λ _. 4 };

    ghost called = { λ _. codes "BadList" };

    fn number(&self) -> u8 {
        4
    }

    fn name(&self) -> &'static str {
        "BadList"
    }
}

// Whether a range that begins at this line has a line, and ends within the file limit.
fn begins(at: u32, range: Span) -> bool
    ensures { result ≡ begins at range }
{
    range.start == at && range.start < range.end && range.end <= FILE_LIMIT
}

// The totals behind one more change, if it may stand there.
fn step(at: Totals, change: Change) -> Option<Totals>
    requires { Within at }
    ensures is { result ≡ step_of at change }
    ensures within { IfSome result Within }
{
    let room = FILE_LIMIT - at.old;
    let (new, passed) = match change {
        Change::Unchanged(range) if begins(at.new, range) => (range.end, range.len()),
        Change::AddedOrReplaced(range, deleted) if begins(at.new, range) => (range.end, deleted),
        Change::Deleted(line, deleted) if line == at.new && 0 < deleted => (at.new, deleted),
        _ => return None,
    };
    if passed <= room {
        Some(Totals {
            new,
            old: at.old + passed,
        })
    } else {
        None
    }
}

// Both totals of the list, or the first position that breaks a rule.
pub fn check_list(changes: &[Change]) -> Result<Totals, BadList>
    ensures is { result ≡ checked changes.now }
    ensures judged { Judged changes.now result }
{
    let mut at = Totals::default();
    for (position, change) in changes.iter().enumerate() {
        let Some(next) = step(at, *change) else {
            return Err(BadList { position });
        };
        at = next;
    }
    Ok(at)
}
