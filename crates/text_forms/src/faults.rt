//! Why a call may be refused.

ghost use Rattle.std.specs.Prelude.{◌≡◌};
ghost use Rattle.text_forms.specs.Faults.{fault_number};

use std::alloc::{AllocError, AllocFailed};
use thiserror::Error;

/// Why a call is refused. What is refused leaves each text that is held as it was, with its ticket and its holders.
#[derive(Clone, Copy, Debug, PartialEq, Eq, Error)]
pub enum Fault {
    /// A request for memory was refused.
    #[error("no memory")]
    Memory,
    /// A text has as many holders as the limits allow.
    #[error("count is full")]
    FullCount,
    /// A bucket has given the last ticket that the limits allow.
    #[error("tickets are spent")]
    TicketsSpent,
    /// A JSON value isn't a text.
    #[error("not a text")]
    NotText,
}

impl Fault {
    /// Its number: 1 for `Memory`, 2 for `FullCount`, 3 for `TicketsSpent`, 4 for `NotText`.
    pub fn number(&self) -> u8
        ensures { result ≡ fault_number self.now }
    {
        match self {
            Fault::Memory => 1,
            Fault::FullCount => 2,
            Fault::TicketsSpent => 3,
            Fault::NotText => 4,
        }
    }
}

impl From<AllocError> for Fault {
    ghost use Rattle.text_forms.specs.declared.faults.Fault.TheVariants.{Memory};

    ghost from_gives = { λ _ fault. fault ≡ Memory };

    fn from(_: AllocError) -> Fault {
        Fault::Memory
    }
}

impl<T: Drop> From<AllocFailed<T>> for Fault {
    ghost use Rattle.text_forms.specs.declared.faults.Fault.TheVariants.{Memory};

    ghost from_gives = { λ _ fault. fault ≡ Memory };

    fn from(_: AllocFailed<T>) -> Fault {
        Fault::Memory
    }
}
