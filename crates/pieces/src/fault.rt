ghost use Rattle.std.specs.Prelude.{◌≡◌};
ghost use Rattle.pieces.specs.Faults.{list_number, list_name, process_number, process_name};
ghost use Rattle.pieces.specs.declared.fault.ListFault.TheVariants.{BadList as Bad};
ghost use Rattle.pieces.specs.declared.fault.ProcessFault.TheVariants.{List as OfList};

use change::list::BadList;
use change::refusal::Refusal;

// Why a change list is not worked on.
#[derive(Clone, Copy, Debug, PartialEq, Eq)]
pub enum ListFault {
    BadList(BadList),
    // It has more changes than are taken.
    ListFull,
}

// Why hunks are not cut.
#[derive(Clone, Copy, Debug, PartialEq, Eq)]
pub enum ProcessFault {
    // This row is no hunk.
    EmptyRange(usize),
    // The commit and its parent are the same.
    SameCommit,
    List(ListFault),
    // This row names the commit, past the end of its file.
    HunkOutside(usize),
    // There is no room for all pieces.
    HunksFull,
}

impl From<BadList> for ListFault {
    ghost from_gives = { λ b f. f ≡ Bad b };

    fn from(bad: BadList) -> ListFault {
        ListFault::BadList(bad)
    }
}

impl From<ListFault> for ProcessFault {
    ghost from_gives = { λ f p. p ≡ OfList f };

    fn from(refused: ListFault) -> ProcessFault {
        ProcessFault::List(refused)
    }
}

impl Refusal for ListFault {
    ghost number = { list_number };

    ghost called = { list_name };

    fn number(&self) -> u8 {
        match self {
            ListFault::BadList(_) => 4,
            ListFault::ListFull => 9,
        }
    }

    fn name(&self) -> &'static str {
        match self {
            ListFault::BadList(_) => "BadList",
            ListFault::ListFull => "ListFull",
        }
    }
}

impl Refusal for ProcessFault {
    ghost number = { process_number };

    ghost called = { process_name };

    fn number(&self) -> u8 {
        match self {
            ProcessFault::EmptyRange(_) => 2,
            ProcessFault::SameCommit => 6,
            ProcessFault::List(fault) => fault.number(),
            ProcessFault::HunkOutside(_) => 5,
            ProcessFault::HunksFull => 7,
        }
    }

    fn name(&self) -> &'static str {
        match self {
            ProcessFault::EmptyRange(_) => "EmptyRange",
            ProcessFault::SameCommit => "SameCommit",
            ProcessFault::List(fault) => fault.name(),
            ProcessFault::HunkOutside(_) => "HunkOutside",
            ProcessFault::HunksFull => "HunksFull",
        }
    }
}
