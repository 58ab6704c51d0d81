ghost use Rattle.std.specs.Prelude.{◌≡◌};
ghost use Rattle.lw_read.specs.declared.text_fault.TextFault.TheVariants.{Memory};

use crate::lexer::Token;
use std::alloc::AllocError;
use thiserror::Error;

/// Why a text isn't one of a language: the fault of the first token that has one, with that token.
#[derive(Clone, Copy, Debug, PartialEq, Eq, Error)]
pub enum TextFault {
    /// No text of the language begins with the tokens up to this one.
    #[error("unexpected token at byte {}", token.start)]
    Unexpected { token: Token },
    /// The token is a word or a number over its limit.
    #[error("token too long at byte {}", token.start)]
    TooLong { token: Token },
    /// The token makes the number of unfinished constructs 401.
    #[error("nested too deeply at byte {}", token.start)]
    Nested { token: Token },
    /// There is no memory for the tree.
    #[error("out of memory")]
    Memory,
}

impl From<AllocError> for TextFault {
    ghost from_gives = { λ _ e. e ≡ Memory };

    fn from(_error: AllocError) -> Self {
        TextFault::Memory
    }
}
