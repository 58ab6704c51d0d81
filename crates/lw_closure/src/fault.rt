use std::alloc::AllocError;

/// How many distinct subformulas a goal may have.
pub const SUBFORMULA_LIMIT: usize = 128;

/// Why there is no closure.
#[derive(Clone, Copy, Debug, PartialEq, Eq)]
pub enum ClosureFault {
    /// The goal has more distinct subformulas than it may have: so many.
    TooLarge { count: usize },
    /// Memory ran out.
    Memory,
}

impl From<AllocError> for ClosureFault {
    ghost use Rattle.std.specs.Prelude.{◌≡◌};
    ghost use Rattle.lw_closure.specs.declared.fault.ClosureFault.TheVariants.{Memory};

    ghost from_gives = { λ _ fault. fault ≡ Memory };

    fn from(_: AllocError) -> Self {
        ClosureFault::Memory
    }
}
