ghost use Rattle.std.specs.Prelude.{◌≡◌, ◌<◌, nat_eq, length, find, take_while, IfOk, nat_lt, ◌^◌};
ghost use Rattle.std.specs.List.{starts_with};
ghost use Rattle.std.specs.Option.{option_map_or};
ghost use Rattle.lw_formula.specs.Name.{is_digit, is_word_byte};
ghost use Rattle.lw_read.specs.Tokens.{is_space, is_letter, is_comment_byte, is_text_byte, decimal, word_front, number_front, quoted_front, symbol_length, symbol_front, front_of, tokens_of, AreInOrder};

use std::alloc::{AllocError, Global};

/// What kind of token it is.
#[derive(Clone, Copy, Debug, PartialEq, Eq)]
pub enum TokenKind {
    /// A letter, and then letters, digits and `_`, of at most 64 bytes.
    Word,
    /// A run of digits whose number is below 2^64.
    Number,
    /// Printable ASCII between two `"`.
    Text,
    /// A bracket, an operator, a comma or a semicolon.
    Symbol,
    /// A word of more than 64 bytes.
    LongWord,
    /// A run of digits whose number is 2^64 or more.
    BigNumber,
    /// One byte that begins no token.
    Bad,
    /// The end of the text.
    Stop,
}

/// A token: its kind, and the bytes of the text, from 0, from `start` up to and without `end`.
#[derive(Clone, Copy, Debug, PartialEq, Eq)]
pub struct Token {
    pub kind: TokenKind,
    pub start: usize,
    pub end: usize,
}

/// What stands at the front of a text, with its length in bytes.
#[derive(Clone, Copy)]
pub enum Front {
    Blank(usize),
    Piece(TokenKind, usize),
    Wrong,
}

/// The symbols; one that begins with another stands before it.
const SYMBOLS: [&str; 18] = [
    "<->", "->", ":=", "==", "!=", "<=", "<", "~", "&", "+", "-", "*", "(", ")", "[", "]", ",", ";",
];

/// The most bytes of a `Word`.
const LONGEST_WORD: usize = 64;

/// The tokens of a text in their order, up to its end, where the last one is a `Stop`, or up to the first byte that
/// begins no token, which is then the last one, a `Bad`. It fails for want of memory alone.
pub fn tokens(alloc: Global, text: &[u8]) -> Result<Vec<Token>, AllocError>
    ensures tokens { IfOk result (λ tokens. tokens.items ≡ tokens_of text.now) }
    ensures order { IfOk result (λ tokens. AreInOrder 0 tokens.items (length text.now)) }
{
    let mut tokens = Vec::new(alloc);
    let mut at = 0;
    while at < text.len() {
        match front_at(&text[at..]) {
            Front::Blank(len) => at += len,
            Front::Piece(kind, len) => {
                let token = Token {
                    kind,
                    start: at,
                    end: at + len,
                };
                tokens.push(token)?;
                at += len;
            }
            Front::Wrong => {
                let token = Token {
                    kind: TokenKind::Bad,
                    start: at,
                    end: at + 1,
                };
                tokens.push(token)?;
                return Ok(tokens);
            }
        }
    }
    let stop = Token {
        kind: TokenKind::Stop,
        start: at,
        end: at,
    };
    tokens.push(stop)?;
    Ok(tokens)
}

// What stands at the front of the text.
#[tactic(auto, unfolding(crate::specs::Tokens::front_of))]
fn front_at(text: &[u8]) -> Front
    requires { 0 < length text.now }
    ensures { result ≡ front_of text.now }
{
    let first = text[0];
    if is_space(first) {
        Front::Blank(1)
    } else if first == b'#' {
        Front::Blank(comment_len(text))
    } else if is_letter(first) {
        word_front(text)
    } else if first.is_ascii_digit() {
        number_front(text)
    } else if first == b'"' {
        quoted_front(&text[1..])
    } else {
        symbol_front(text)
    }
}

fn is_space(byte: u8) -> bool
    ensures { result ≡ is_space byte }
{
    byte == b' ' || byte == b'\t' || byte == b'\r' || byte == b'\n'
}

fn is_letter(byte: u8) -> bool
    ensures { result ≡ is_letter byte }
{
    byte.is_ascii_lowercase() || byte.is_ascii_uppercase()
}

/// Whether a word goes on with this byte.
pub fn is_word_byte(byte: u8) -> bool
    ensures { result ≡ is_word_byte byte }
{
    byte.is_ascii_alphanumeric() || byte == b'_'
}

fn is_text_byte(byte: u8) -> bool
    ensures { result ≡ is_text_byte byte }
{
    byte >= b' ' && byte <= b'~' && byte != b'"'
}

// How many bytes stand before the first line feed.
fn comment_len(text: &[u8]) -> usize
    ensures { result ≡ length (take_while is_comment_byte text.now) }
{
    text.iter().take_while(|byte| **byte != b'\n').count()
}

// How many bytes the word has that the text begins with.
fn word_len(text: &[u8]) -> usize
    ensures { result ≡ length (take_while is_word_byte text.now) }
{
    text.iter().take_while(|byte| is_word_byte(**byte)).count()
}

// How many digits the text begins with.
fn digit_len(text: &[u8]) -> usize
    ensures { result ≡ length (take_while is_digit text.now) }
{
    text.iter().take_while(|byte| byte.is_ascii_digit()).count()
}

// How many bytes stand before what ends a text, or breaks it off.
fn held_len(text: &[u8]) -> usize
    ensures { result ≡ length (take_while is_text_byte text.now) }
{
    text.iter().take_while(|byte| is_text_byte(**byte)).count()
}

// The word that the text begins with.
fn word_front(text: &[u8]) -> Front
    ensures { result ≡ word_front (take_while is_word_byte text.now) }
{
    let len = word_len(text);
    if len <= LONGEST_WORD {
        Front::Piece(TokenKind::Word, len)
    } else {
        Front::Piece(TokenKind::LongWord, len)
    }
}

// The number that the text begins with.
fn number_front(text: &[u8]) -> Front
    ensures { result ≡ number_front (take_while is_digit text.now) }
{
    let len = digit_len(text);
    if fits_number(&text[..len]) {
        Front::Piece(TokenKind::Number, len)
    } else {
        Front::Piece(TokenKind::BigNumber, len)
    }
}

// Whether the number that the digits write is below 2^64.
fn fits_number(digits: &[u8]) -> bool
    ensures { result ≡ nat_lt (decimal digits.now) (2 ^ 64) }
{
    let mut value: u64 = 0;
    for byte in digits {
        let digit = u64::from(byte.saturating_sub(b'0'));
        if value > (u64::MAX - digit) / 10 {
            return false;
        }
        value = value * 10 + digit;
    }
    true
}

// The text whose first quote stands before these bytes.
fn quoted_front(text: &[u8]) -> Front
    ensures { result ≡ quoted_front (length (take_while is_text_byte text.now)) text.now }
{
    let held = held_len(text);
    if held < text.len() && text[held] == b'"' {
        Front::Piece(TokenKind::Text, held + 2)
    } else {
        Front::Wrong
    }
}

// The symbol that the text begins with.
#[tactic(auto, unfolding(crate::specs::Tokens::symbol_length, crate::specs::Tokens::symbols))]
fn symbol_front(text: &[u8]) -> Front
    ensures { result ≡ symbol_front (symbol_length text.now) }
{
    let len = symbol_len(&SYMBOLS, text);
    if len == 0 {
        Front::Wrong
    } else {
        Front::Piece(TokenKind::Symbol, len)
    }
}

// The length of the first of the symbols that the text begins with, or 0.
fn symbol_len(symbols: &[&str], text: &[u8]) -> usize
    ensures { result
        ≡ option_map_or (λ s. length s.now) (find (λ s. starts_with nat_eq text.now s.now) symbols.now) 0 }
{
    for symbol in symbols {
        if text.starts_with(symbol.as_bytes()) {
            return symbol.len();
        }
    }
    0
}
