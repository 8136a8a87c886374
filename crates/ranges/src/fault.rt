ghost use Rattle.std.specs.Prelude.{◌≡◌};
ghost use Rattle.ranges.specs.Faults.{number_of, name_of};

use change::refusal::Refusal;

// Why a range is not added.
#[derive(Clone, Copy, Debug, PartialEq, Eq)]
pub enum RangeFault {
    // Lines count from one.
    ZeroLine,
    // The range ends before it begins.
    EmptyRange,
    // There would be more than 64 ranges.
    RangesFull,
}

// The first entry of a list that is refused, and why.
#[derive(Clone, Copy, Debug, PartialEq, Eq)]
pub struct BadEntry {
    pub position: usize,
    pub fault: RangeFault,
}

impl Refusal for RangeFault {
    ghost number = { number_of };

    ghost called = { name_of };

    fn number(&self) -> u8 {
        match self {
            RangeFault::ZeroLine => 1,
            RangeFault::EmptyRange => 2,
            RangeFault::RangesFull => 3,
        }
    }

    fn name(&self) -> &'static str {
        match self {
            RangeFault::ZeroLine => "ZeroLine",
            RangeFault::EmptyRange => "EmptyRange",
            RangeFault::RangesFull => "RangesFull",
        }
    }
}

impl Refusal for BadEntry {
    ghost number = { λ e. number_of e.fault };

    ghost called = { λ e. name_of e.fault };

    fn number(&self) -> u8 {
        self.fault.number()
    }

    fn name(&self) -> &'static str {
        self.fault.name()
    }
}
