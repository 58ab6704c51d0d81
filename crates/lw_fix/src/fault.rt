ghost use Rattle.std.specs.Prelude.{◌≡◌};
ghost use Rattle.lw_fix.specs.declared.fault.FixFault.TheVariants.{Memory};

use std::alloc::AllocError;
use thiserror::Error;

/// Why a formula has no fixed point here.
#[derive(Clone, Copy, Debug, PartialEq, Eq, Error)]
pub enum FixFault {
    /// An occurrence of the variable is under neither `box` nor `dia`.
    #[error("not modalised")]
    NotModalised,
    /// There are more than 10 outermost modal subformulas with the variable: so many.
    #[error("too many boxes {count}")]
    TooManyBoxes { count: usize },
    /// There is no memory for the fixed point.
    #[error("out of memory")]
    Memory,
}

impl From<AllocError> for FixFault {
    ghost from_gives = { λ _ e. e ≡ Memory };

    fn from(_error: AllocError) -> Self {
        FixFault::Memory
    }
}
