ghost use Rattle.std.specs.Prelude.{◌≡◌};

use crate::text_fault::TextFault;
use thiserror::Error;

/// Why a text is no formula: the fault of the first token that has one, at the token's first byte, from 0, or at the
/// text's length where the text ends too early.
#[derive(Clone, Copy, Debug, PartialEq, Eq, Error)]
pub enum ReadFault {
    /// No formula begins with the tokens up to this one.
    #[error("unexpected token at byte {at}")]
    Unexpected { at: usize },
    /// The token makes the number of unfinished constructs 401.
    #[error("nested too deeply at byte {at}")]
    Nested { at: usize },
    /// A variable of more than 64 bytes.
    #[error("name too long at byte {at}")]
    Name { at: usize },
    /// There is no memory for the tree.
    #[error("out of memory")]
    Memory,
}

impl From<TextFault> for ReadFault {
    ghost use Rattle.lw_read.specs.Grammar.{read_fault};

    ghost from_gives = { λ fault gives. gives ≡ read_fault fault };

    fn from(fault: TextFault) -> Self {
        match fault {
            TextFault::Unexpected { token } => ReadFault::Unexpected { at: token.start },
            TextFault::TooLong { token } => ReadFault::Name { at: token.start },
            TextFault::Nested { token } => ReadFault::Nested { at: token.start },
            TextFault::Memory => ReadFault::Memory,
        }
    }
}
