ghost use Rattle.std.specs.Prelude.{codes};
ghost use Rattle.hunk.specs.Faults.{number_of, name_of};

use change::refusal::Refusal;

// Why a suspect is not added to a hunk.
#[derive(Clone, Copy, Debug, PartialEq, Eq)]
pub enum SuspectFault {
    // The hunk names the commit already.
    SameCommit,
    // The range there would pass the file limit.
    EmptyRange,
    // The hunk has eight suspects.
    SuspectsFull,
}

// A hunk of no line, or past the file limit.
#[derive(Clone, Copy, Debug, PartialEq, Eq)]
pub struct EmptyRange;

impl Refusal for SuspectFault {
    ghost number = { number_of };

    ghost called = { name_of };

    fn number(&self) -> u8 {
        match self {
            SuspectFault::SameCommit => 6,
            SuspectFault::EmptyRange => 2,
            SuspectFault::SuspectsFull => 8,
        }
    }

    fn name(&self) -> &'static str {
        match self {
            SuspectFault::SameCommit => "SameCommit",
            SuspectFault::EmptyRange => "EmptyRange",
            SuspectFault::SuspectsFull => "SuspectsFull",
        }
    }
}

impl Refusal for EmptyRange {
    ghost number = { λ _. 2 };

    ghost called = { λ _. codes "EmptyRange" };

    fn number(&self) -> u8 {
        2
    }

    fn name(&self) -> &'static str {
        "EmptyRange"
    }
}
