ghost use Rattle.std.specs.Prelude.{◌≡◌};
ghost use Rattle.lw_read.specs.Lexemes.{kind_lexeme, word_lexeme, symbol_lexeme};
ghost use Rattle.lw_read.specs.Grammar.{rank};
ghost use Rattle.lw_read.specs.Private.ReaderViews.{lexeme};
ghost use Rattle.lw_read.specs.Text.{sign_text};

use crate::lexer::TokenKind;
use lw_formula::Joint;

/// What stands before its operand.
#[derive(Clone, Copy)]
pub enum Prefix {
    Not,
    Nec,
    Poss,
}

/// What a token is in a formula. A `Word` may be a variable.
#[derive(Clone, Copy)]
pub enum Part {
    Word,
    Truth,
    Falsity,
    Before(Prefix),
    Between(Joint),
    Open,
    Close,
    End,
    Foreign,
}

/// What a token of this kind with these bytes is in a formula.
pub fn part_of(kind: TokenKind, bytes: &[u8]) -> Part
    ensures { lexeme result bytes.now ≡ kind_lexeme kind bytes.now }
{
    match kind {
        TokenKind::Word | TokenKind::LongWord => word_part(bytes),
        TokenKind::Symbol => symbol_part(bytes),
        TokenKind::Stop => Part::End,
        TokenKind::Number | TokenKind::Text | TokenKind::BigNumber | TokenKind::Bad =>
            Part::Foreign,
    }
}

#[tactic(auto, unfolding(crate::specs::Lexemes::word_lexeme))]
fn word_part(word: &[u8]) -> Part
    ensures { lexeme result word.now ≡ word_lexeme word.now }
{
    if word == b"true".as_slice() {
        Part::Truth
    } else if word == b"false".as_slice() {
        Part::Falsity
    } else if word == b"box".as_slice() {
        Part::Before(Prefix::Nec)
    } else if word == b"dia".as_slice() {
        Part::Before(Prefix::Poss)
    } else if word == b"v".as_slice() {
        Part::Between(Joint::Or)
    } else {
        Part::Word
    }
}

#[tactic(auto, unfolding(crate::specs::Lexemes::symbol_lexeme))]
fn symbol_part(symbol: &[u8]) -> Part
    ensures { lexeme result symbol.now ≡ symbol_lexeme symbol.now }
{
    if symbol == b"~".as_slice() {
        Part::Before(Prefix::Not)
    } else if symbol == b"&".as_slice() {
        Part::Between(Joint::And)
    } else if symbol == b"->".as_slice() {
        Part::Between(Joint::Imp)
    } else if symbol == b"<->".as_slice() {
        Part::Between(Joint::Iff)
    } else if symbol == b"(".as_slice() {
        Part::Open
    } else if symbol == b")".as_slice() {
        Part::Close
    } else {
        Part::Foreign
    }
}

/// How tightly the connective binds: 1 for `<->` to 4 for `&`.
pub fn rank(sign: Joint) -> u8
    ensures { result ≡ rank sign }
{
    match sign {
        Joint::Iff => 1,
        Joint::Imp => 2,
        Joint::Or => 3,
        Joint::And => 4,
    }
}

/// The connective with the spaces round it.
pub fn sign_text(sign: Joint) -> &'static str
    ensures { result.now ≡ sign_text sign }
{
    match sign {
        Joint::And => " & ",
        Joint::Or => " v ",
        Joint::Imp => " -> ",
        Joint::Iff => " <-> ",
    }
}
