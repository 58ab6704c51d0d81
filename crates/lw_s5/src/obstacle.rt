use lw_proof::Proof;
use std::alloc::AllocError;

/// What keeps an unclosed label from being the root of an open fragment.
#[derive(Drop)]
pub(crate) enum Obstacle {
    /// This proof closes it.
    Closed(Proof),
    /// A child has an item of this modal formula, and the label has neither.
    Undecided(usize),
    /// Memory ran out.
    Memory,
}

impl From<AllocError> for Obstacle {
    ghost use Rattle.std.specs.Prelude.{◌≡◌};
    ghost use Rattle.lw_s5.specs.declared.obstacle.Obstacle.TheVariants.{Memory};

    ghost from_gives = { λ _ obstacle. obstacle ≡ Memory };

    fn from(_: AllocError) -> Self {
        Obstacle::Memory
    }
}
