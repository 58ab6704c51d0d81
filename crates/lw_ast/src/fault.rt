ghost use Rattle.std.specs.Prelude.{◌≡◌};
ghost use Rattle.lw_ast.specs.ScriptFaults.{script_fault, syntax_fault, why_long};

use lw_read::{TextFault, Token, TokenKind, place_of};
use thiserror::Error;

/// Why a text is no script: the fault of the first token that has one, at the line and the column of its first byte,
/// both from 1; columns count bytes. The end of the text is a token too.
#[derive(Clone, Copy, Debug, PartialEq, Eq, Error)]
pub enum ScriptFault {
    /// A token that stands where it may not.
    #[error("line {line} column {column}: {why:?}")]
    Syntax {
        line: usize,
        column: usize,
        why: SyntaxWhy,
    },
    /// There is no memory for the script.
    #[error("out of memory")]
    Memory,
}

/// What is wrong with a token.
#[derive(Clone, Copy, Debug, PartialEq, Eq)]
pub enum SyntaxWhy {
    /// No script begins with the tokens up to this one.
    Unexpected,
    /// The token makes the number of unfinished constructs 401.
    Nested,
    /// A variable of more than 64 bytes.
    Name,
    /// A number of 2^64 or more.
    Number,
}

/// The fault of a script's text.
pub fn script_fault(text: &[u8], fault: TextFault) -> ScriptFault
    ensures { result ≡ script_fault text.now fault }
{
    match fault {
        TextFault::Unexpected { token } => syntax_fault(text, token, SyntaxWhy::Unexpected),
        TextFault::TooLong { token } => syntax_fault(text, token, why_long(token.kind)),
        TextFault::Nested { token } => syntax_fault(text, token, SyntaxWhy::Nested),
        TextFault::Memory => ScriptFault::Memory,
    }
}

fn syntax_fault(text: &[u8], token: Token, why: SyntaxWhy) -> ScriptFault
    ensures { result ≡ syntax_fault text.now token why }
{
    let place = place_of(text, token.start);
    ScriptFault::Syntax {
        line: place.line,
        column: place.column,
        why,
    }
}

// What is too long about a token of this kind.
fn why_long(kind: TokenKind) -> SyntaxWhy
    ensures { result ≡ why_long kind }
{
    match kind {
        TokenKind::Number | TokenKind::BigNumber => SyntaxWhy::Number,
        TokenKind::Word
        | TokenKind::LongWord
        | TokenKind::Text
        | TokenKind::Symbol
        | TokenKind::Bad
        | TokenKind::Stop => SyntaxWhy::Name,
    }
}
