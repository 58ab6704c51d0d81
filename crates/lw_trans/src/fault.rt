ghost use Rattle.std.specs.Prelude.{◌≡◌};
ghost use Rattle.lw_trans.specs.declared.fault.TransFault.TheVariants.{Memory};

use crate::connective::Connective;
use std::alloc::AllocError;
use thiserror::Error;

/// Why a formula has no translation.
#[derive(Clone, Copy, Debug, PartialEq, Eq, Error)]
pub enum TransFault {
    /// The formula has `box`, `dia`, `<->` or `true`: the first of them in this order.
    #[error("not intuitionistic")]
    NotIntuitionistic { what: Connective },
    /// There is no memory for the translation.
    #[error("out of memory")]
    Memory,
}

impl From<AllocError> for TransFault {
    ghost from_gives = { λ _ e. e ≡ Memory };

    fn from(_error: AllocError) -> Self {
        TransFault::Memory
    }
}
