ghost use Rattle.std.specs.Prelude.{◌≡◌};
ghost use Rattle.lw_eval.specs.declared.fault.EvalFault.TheVariants.{Troubled, Memory};

use crate::trouble::Trouble;
use std::alloc::AllocError;

/// Why an expression has no value.
#[derive(Debug, PartialEq, Eq, Drop)]
pub enum EvalFault {
    /// The script's run ends here.
    Troubled(Trouble),
    /// Memory ran out.
    Memory,
}

impl From<Trouble> for EvalFault {
    ghost from_gives = { λ trouble fault. fault ≡ Troubled trouble };

    fn from(trouble: Trouble) -> Self {
        EvalFault::Troubled(trouble)
    }
}

impl From<AllocError> for EvalFault {
    ghost from_gives = { λ _ fault. fault ≡ Memory };

    fn from(_error: AllocError) -> Self {
        EvalFault::Memory
    }
}
