ghost use Rattle.std.specs.Prelude.{◌≡◌};
ghost use Rattle.lw_trace.specs.declared.fault.TraceFault.TheVariants.{Memory};

use lw_formula::Name;
use std::alloc::AllocError;
use thiserror::Error;

/// Why a formula has no trace here.
#[derive(Debug, Drop, PartialEq, Eq, Error)]
pub enum TraceFault {
    /// The formula has variables: the first in byte order.
    #[error("not letterless")]
    NotLetterless { name: Name },
    /// The formula has more distinct subformulas than it may have: so many.
    #[error("{count} distinct subformulas are too many")]
    TooLarge { count: usize },
    /// There is no memory for the trace.
    #[error("out of memory")]
    Memory,
}

impl From<AllocError> for TraceFault {
    ghost from_gives = { λ _ e. e ≡ Memory };

    fn from(_error: AllocError) -> Self {
        TraceFault::Memory
    }
}
