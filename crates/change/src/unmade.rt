ghost use Rattle.std.specs.Prelude.{◌≡◌};
ghost use Rattle.change.specs.Refusals.{or_memory_number, or_memory_name};
ghost use Rattle.change.specs.declared.unmade.Unmade.TheVariants.{Refused, OutOfMemory as Memory};

use crate::list::BadList;
use crate::refusal::Refusal;
use std::alloc::{AllocError, AllocFailed};

// Why something was not made: it is refused, or there is no memory for it.
#[derive(Clone, Copy, Debug, PartialEq, Eq)]
pub enum Unmade<E> {
    Refused(E),
    OutOfMemory,
}

impl<E: Refusal> Refusal for Unmade<E> {
    ghost number = { or_memory_number E.Refusal.number };

    ghost called = { or_memory_name E.Refusal.called };

    fn number(&self) -> u8 {
        match self {
            Unmade::Refused(fault) => fault.number(),
            Unmade::OutOfMemory => 255,
        }
    }

    fn name(&self) -> &'static str {
        match self {
            Unmade::Refused(fault) => fault.name(),
            Unmade::OutOfMemory => "OutOfMemory",
        }
    }
}

impl From<BadList> for Unmade<BadList> {
    ghost from_gives = { λ e r. r ≡ Refused e };

    fn from(e: BadList) -> Unmade<BadList> {
        Unmade::Refused(e)
    }
}

impl<E> From<AllocError> for Unmade<E> {
    ghost from_gives = { λ _ r. r ≡ Memory };

    fn from(_e: AllocError) -> Unmade<E> {
        Unmade::OutOfMemory
    }
}

impl<E, T: Drop> From<AllocFailed<T>> for Unmade<E> {
    ghost from_gives = { λ _ r. r ≡ Memory };

    fn from(_e: AllocFailed<T>) -> Unmade<E> {
        Unmade::OutOfMemory
    }
}
