ghost use Rattle.std.specs.Prelude.{◌≡◌};
ghost use Rattle.lw_decide.specs.Fault.{closure_fault};
ghost use Rattle.lw_decide.specs.declared.fault.DecideFault.TheVariants.{Memory};

use lw_closure::ClosureFault;
use std::alloc::AllocError;
use thiserror::Error;

/// Why nothing was decided.
#[derive(Clone, Copy, Debug, PartialEq, Eq, Error)]
pub enum DecideFault {
    /// The goal has more distinct subformulas than it may have: so many.
    #[error("{count} distinct subformulas are too many")]
    TooLarge { count: usize },
    /// Memory ran out.
    #[error("out of memory")]
    Memory,
}

impl From<ClosureFault> for DecideFault {
    ghost from_gives = { λ fault gives. closure_fault gives ≡ fault };

    fn from(fault: ClosureFault) -> Self {
        match fault {
            ClosureFault::TooLarge { count } => DecideFault::TooLarge { count },
            ClosureFault::Memory => DecideFault::Memory,
        }
    }
}

impl From<AllocError> for DecideFault {
    ghost from_gives = { λ _ gives. gives ≡ Memory };

    fn from(_error: AllocError) -> Self {
        DecideFault::Memory
    }
}
