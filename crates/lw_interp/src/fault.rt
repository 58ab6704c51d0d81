ghost use Rattle.std.specs.Prelude.{◌≡◌};
ghost use Rattle.lw_interp.specs.declared.fault.InterpFault.TheVariants.{Memory};

use lw_formula::Logic;
use std::alloc::AllocError;
use thiserror::Error;

/// Why there is no interpolant.
#[derive(Clone, Copy, Debug, PartialEq, Eq, Error)]
pub enum InterpFault {
    /// No interpolants are read off the proofs of this logic, which is S5, Grz, K4 or KD.
    #[error("no interpolants")]
    NoInterpolants { logic: Logic },
    /// There is no memory for the interpolant.
    #[error("out of memory")]
    Memory,
}

impl From<AllocError> for InterpFault {
    ghost from_gives = { λ _ e. e ≡ Memory };

    fn from(_error: AllocError) -> Self {
        InterpFault::Memory
    }
}
