//! Why a run stops early.
use std::alloc::AllocError;
use thiserror::Error;

/// Why a run gave no outcome.
#[derive(Clone, Copy, PartialEq, Eq, Debug, Error)]
pub enum RunFault {
    /// Memory was refused at the start (60).
    #[error("no memory")]
    Memory,
    /// A write failed (61); what was written is a beginning of the run's text.
    #[error("cannot write")]
    Write,
}

impl From<AllocError> for RunFault {
    ghost use Rattle.std.specs.Prelude.{◌≡◌};
    ghost use Rattle.machine.specs.declared.fault.RunFault.TheVariants.{Memory};

    ghost from_gives = { λ _ fault. fault ≡ Memory };

    fn from(_refused: AllocError) -> RunFault {
        RunFault::Memory
    }
}
