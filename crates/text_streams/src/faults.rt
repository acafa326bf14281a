//! The errors of the program.

ghost use Rattle.std.specs.Prelude.{◌≡◌};

use replay_script::ScriptFault;
use std::alloc::{AllocError, AllocFailed};
use string_cache::Fault;
use table_generator::tables::GenFault;
use thiserror::Error;

/// The errors of the program's commands.
#[derive(Clone, Copy, Debug, PartialEq, Eq, Error)]
pub enum AppFault {
    /// The reader failed.
    #[error("read failed")]
    Read,
    /// The writer failed, or took none of the bytes.
    #[error("write failed")]
    Write,
    /// The input isn't UTF-8.
    #[error("input is not UTF-8")]
    Text,
    /// This line of a script, counted from 1, isn't a step.
    #[error("line {0}: not a step")]
    Script(u64),
    /// A worker's thread couldn't be started.
    #[error("worker not started")]
    Worker,
    /// The system gave no random keys for the maps of a command that needs them. It is returned before anything is read or written.
    #[error("no random keys")]
    Keys,
    /// Interning was refused, or memory for the program itself.
    #[error("{0}")]
    Intern(Fault),
    /// No tables were made.
    #[error("{0}")]
    Gen(GenFault),
}

impl From<ScriptFault> for AppFault {
    ghost use Rattle.text_streams.specs.Faults.{of_script};

    ghost from_gives = { λ cause fault. fault ≡ of_script cause };

    fn from(cause: ScriptFault) -> AppFault {
        match cause {
            ScriptFault::NotAStep(line) => AppFault::Script(line),
            ScriptFault::Memory => AppFault::Intern(Fault::Memory),
        }
    }
}

impl From<GenFault> for AppFault {
    ghost use Rattle.text_streams.specs.declared.faults.AppFault.TheVariants.{Gen};

    ghost from_gives = { λ cause fault. fault ≡ Gen cause };

    fn from(cause: GenFault) -> AppFault {
        AppFault::Gen(cause)
    }
}

impl From<Fault> for AppFault {
    ghost use Rattle.text_streams.specs.declared.faults.AppFault.TheVariants.{Intern};

    ghost from_gives = { λ cause fault. fault ≡ Intern cause };

    fn from(cause: Fault) -> AppFault {
        AppFault::Intern(cause)
    }
}

impl From<AllocError> for AppFault {
    ghost use Rattle.text_streams.specs.declared.faults.AppFault.TheVariants.{Intern};
    ghost use Rattle.string_cache.specs.declared.Fault.TheVariants.{Memory};

    ghost from_gives = { λ _ fault. fault ≡ Intern Memory };

    fn from(_: AllocError) -> AppFault {
        AppFault::Intern(Fault::Memory)
    }
}

impl<T: Drop> From<AllocFailed<T>> for AppFault {
    ghost use Rattle.text_streams.specs.declared.faults.AppFault.TheVariants.{Intern};
    ghost use Rattle.string_cache.specs.declared.Fault.TheVariants.{Memory};

    ghost from_gives = { λ _ fault. fault ≡ Intern Memory };

    fn from(_: AllocFailed<T>) -> AppFault {
        AppFault::Intern(Fault::Memory)
    }
}
