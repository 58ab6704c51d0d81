ghost use Rattle.std.specs.Prelude.{◌≡◌};
ghost use Rattle.lw_read.specs.declared.print_fault.PrintFault.TheVariants.{Memory};

use std::alloc::AllocError;
use thiserror::Error;

/// Why the text of a pool's formula isn't given.
#[derive(Clone, Copy, Debug, PartialEq, Eq, Error)]
pub enum PrintFault {
    /// The text has more than 1,048,576 bytes.
    #[error("the text is too long")]
    TextLimit,
    /// There is no memory for the text.
    #[error("out of memory")]
    Memory,
}

impl From<AllocError> for PrintFault {
    ghost from_gives = { λ _ e. e ≡ Memory };

    fn from(_error: AllocError) -> Self {
        PrintFault::Memory
    }
}
