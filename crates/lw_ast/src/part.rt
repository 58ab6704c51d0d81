ghost use Rattle.std.specs.Prelude.{◌≡◌, ◌≤◌, ℕ};
ghost use Rattle.lw_ast.specs.Functions.{arity, function_of};
ghost use Rattle.lw_ast.specs.ScriptLexemes.{kind_script_lexeme, word_sign, symbol_sign, constant_word, operator_word, statement_word, formula_symbol, value_symbol, other_symbol, known, statement_or_name, named_or_name};
ghost use Rattle.lw_ast.specs.Private.ReaderViews.{lexeme, some_lexeme};

use crate::function::Function;
use crate::operator::{Link, Op, Prefix, Relation, Series};
use lw_formula::{Joint, Logic};
use lw_read::TokenKind;

/// What a token is in a script. A `Word` may be a variable.
#[derive(Clone, Copy)]
pub enum Part {
    Word,
    Number,
    Text,
    Top,
    Bot,
    Truth(bool),
    Nothing,
    Logic(Logic),
    Before(Prefix),
    Deny,
    Between(Link),
    Compare(Relation),
    Chained(Series, Op),
    Open,
    Close,
    OpenList,
    CloseList,
    Comma,
    Calls(Function),
    Becomes,
    Semicolon,
    Print,
    If,
    Then,
    Else,
    End,
    For,
    To,
    In,
    Do,
    While,
    Stops,
    Foreign,
}

/// What a token of this kind with these bytes is in a script.
pub fn part_of(kind: TokenKind, bytes: &[u8]) -> Part
    ensures { (line : ℕ) → lexeme result line bytes.now ≡ kind_script_lexeme kind line bytes.now }
{
    match kind {
        TokenKind::Word | TokenKind::LongWord => word_part(bytes),
        TokenKind::Number | TokenKind::BigNumber => Part::Number,
        TokenKind::Text => Part::Text,
        TokenKind::Symbol => symbol_part(bytes),
        TokenKind::Stop => Part::Stops,
        TokenKind::Bad => Part::Foreign,
    }
}

fn word_part(word: &[u8]) -> Part
    ensures { (line : ℕ) → lexeme result line word.now ≡ word_sign line word.now }
{
    match constant_part(word) {
        Some(part) => part,
        None => word_past_constants(word),
    }
}

fn word_past_constants(word: &[u8]) -> Part
    ensures { (line : ℕ) → lexeme result line word.now ≡ known (operator_word word.now) (statement_or_name line word.now) }
{
    match operator_part(word) {
        Some(part) => part,
        None => word_past_operators(word),
    }
}

fn word_past_operators(word: &[u8]) -> Part
    ensures { (line : ℕ) → lexeme result line word.now ≡ statement_or_name line word.now }
{
    match statement_part(word) {
        Some(part) => part,
        None => word_past_statements(word),
    }
}

fn word_past_statements(word: &[u8]) -> Part
    ensures { (line : ℕ) → lexeme result line word.now ≡ named_or_name line word.now }
{
    if let Some(logic) = Logic::from_word(word) {
        Part::Logic(logic)
    } else if let Some(function) = function_of(word) {
        Part::Calls(function)
    } else {
        Part::Word
    }
}

#[tactic(auto, unfolding(crate::specs::ScriptLexemes::constant_word))]
fn constant_part(word: &[u8]) -> Option<Part>
    ensures { (line : ℕ) → some_lexeme result line word.now ≡ constant_word word.now }
{
    if word == b"true".as_slice() {
        Some(Part::Top)
    } else if word == b"false".as_slice() {
        Some(Part::Bot)
    } else if word == b"yes".as_slice() {
        Some(Part::Truth(true))
    } else if word == b"no".as_slice() {
        Some(Part::Truth(false))
    } else if word == b"none".as_slice() {
        Some(Part::Nothing)
    } else {
        None
    }
}

#[tactic(auto, unfolding(crate::specs::ScriptLexemes::operator_word))]
fn operator_part(word: &[u8]) -> Option<Part>
    ensures { (line : ℕ) → some_lexeme result line word.now ≡ operator_word word.now }
{
    if word == b"box".as_slice() {
        Some(Part::Before(Prefix::Nec))
    } else if word == b"dia".as_slice() {
        Some(Part::Before(Prefix::Poss))
    } else if word == b"v".as_slice() {
        Some(Part::Between(Link::Binary(Joint::Or)))
    } else if word == b"or".as_slice() {
        Some(Part::Between(Link::Either))
    } else if word == b"and".as_slice() {
        Some(Part::Between(Link::Both))
    } else if word == b"not".as_slice() {
        Some(Part::Deny)
    } else {
        None
    }
}

#[tactic(auto, unfolding(crate::specs::ScriptLexemes::statement_word))]
fn statement_part(word: &[u8]) -> Option<Part>
    ensures { (line : ℕ) → some_lexeme result line word.now ≡ statement_word line word.now }
{
    if word == b"print".as_slice() {
        Some(Part::Print)
    } else if word == b"if".as_slice() {
        Some(Part::If)
    } else if word == b"then".as_slice() {
        Some(Part::Then)
    } else if word == b"else".as_slice() {
        Some(Part::Else)
    } else if word == b"end".as_slice() {
        Some(Part::End)
    } else if word == b"for".as_slice() {
        Some(Part::For)
    } else if word == b"to".as_slice() {
        Some(Part::To)
    } else if word == b"in".as_slice() {
        Some(Part::In)
    } else if word == b"do".as_slice() {
        Some(Part::Do)
    } else if word == b"while".as_slice() {
        Some(Part::While)
    } else {
        None
    }
}

/// The function that the word stands for, if it is the word of one.
#[tactic(auto, unfolding(crate::specs::Functions::function_of))]
pub fn function_of(word: &[u8]) -> Option<Function>
    ensures { result ≡ function_of word.now }
{
    if word == b"provable".as_slice() {
        Some(Function::Provable)
    } else if word == b"certificate".as_slice() {
        Some(Function::Certificate)
    } else if word == b"interpolate".as_slice() {
        Some(Function::Interpolate)
    } else if word == b"fixpoint".as_slice() {
        Some(Function::Fixpoint)
    } else if word == b"nnf".as_slice() {
        Some(Function::Nnf)
    } else if word == b"simplify".as_slice() {
        Some(Function::Simplify)
    } else if word == b"goedel".as_slice() {
        Some(Function::Goedel)
    } else if word == b"boxdot".as_slice() {
        Some(Function::Boxdot)
    } else if word == b"substitute".as_slice() {
        Some(Function::Substitute)
    } else if word == b"vars".as_slice() {
        Some(Function::Vars)
    } else if word == b"depth".as_slice() {
        Some(Function::Depth)
    } else if word == b"count".as_slice() {
        Some(Function::Count)
    } else if word == b"length".as_slice() {
        Some(Function::Length)
    } else if word == b"item".as_slice() {
        Some(Function::Item)
    } else if word == b"append".as_slice() {
        Some(Function::Append)
    } else if word == b"smallest".as_slice() {
        Some(Function::Smallest)
    } else if word == b"trace".as_slice() {
        Some(Function::Trace)
    } else if word == b"letterless".as_slice() {
        Some(Function::Letterless)
    } else if word == b"shared".as_slice() {
        Some(Function::Shared)
    } else {
        None
    }
}

fn symbol_part(symbol: &[u8]) -> Part
    ensures { (line : ℕ) → lexeme result line symbol.now ≡ symbol_sign symbol.now }
{
    match formula_part(symbol) {
        Some(part) => part,
        None => symbol_past_formulas(symbol),
    }
}

fn symbol_past_formulas(symbol: &[u8]) -> Part
    ensures { (line : ℕ) → lexeme result line symbol.now ≡ known (value_symbol symbol.now) (other_symbol symbol.now) }
{
    match value_part(symbol) {
        Some(part) => part,
        None => other_part(symbol),
    }
}

#[tactic(auto, unfolding(crate::specs::ScriptLexemes::formula_symbol))]
fn formula_part(symbol: &[u8]) -> Option<Part>
    ensures { (line : ℕ) → some_lexeme result line symbol.now ≡ formula_symbol symbol.now }
{
    if symbol == b"~".as_slice() {
        Some(Part::Before(Prefix::Not))
    } else if symbol == b"&".as_slice() {
        Some(Part::Between(Link::Binary(Joint::And)))
    } else if symbol == b"->".as_slice() {
        Some(Part::Between(Link::Binary(Joint::Imp)))
    } else if symbol == b"<->".as_slice() {
        Some(Part::Between(Link::Binary(Joint::Iff)))
    } else if symbol == b"(".as_slice() {
        Some(Part::Open)
    } else if symbol == b")".as_slice() {
        Some(Part::Close)
    } else {
        None
    }
}

#[tactic(auto, unfolding(crate::specs::ScriptLexemes::value_symbol))]
fn value_part(symbol: &[u8]) -> Option<Part>
    ensures { (line : ℕ) → some_lexeme result line symbol.now ≡ value_symbol symbol.now }
{
    if symbol == b"==".as_slice() {
        Some(Part::Compare(Relation::Equal))
    } else if symbol == b"!=".as_slice() {
        Some(Part::Compare(Relation::Unequal))
    } else if symbol == b"<".as_slice() {
        Some(Part::Compare(Relation::Less))
    } else if symbol == b"<=".as_slice() {
        Some(Part::Compare(Relation::AtMost))
    } else if symbol == b"+".as_slice() {
        Some(Part::Chained(Series::Sum, Op::Plus))
    } else if symbol == b"-".as_slice() {
        Some(Part::Chained(Series::Sum, Op::Minus))
    } else if symbol == b"*".as_slice() {
        Some(Part::Chained(Series::Product, Op::Times))
    } else {
        None
    }
}

#[tactic(auto, unfolding(crate::specs::ScriptLexemes::other_symbol))]
fn other_part(symbol: &[u8]) -> Part
    ensures { (line : ℕ) → lexeme result line symbol.now ≡ other_symbol symbol.now }
{
    if symbol == b"[".as_slice() {
        Part::OpenList
    } else if symbol == b"]".as_slice() {
        Part::CloseList
    } else if symbol == b",".as_slice() {
        Part::Comma
    } else if symbol == b";".as_slice() {
        Part::Semicolon
    } else if symbol == b":=".as_slice() {
        Part::Becomes
    } else {
        Part::Foreign
    }
}

/// How many arguments the function takes, one at the least.
pub fn arity(function: Function) -> usize
    ensures arity { result ≡ arity function }
    ensures some { 1 ≤ result }
{
    match function {
        Function::Provable
        | Function::Certificate
        | Function::Fixpoint
        | Function::Item
        | Function::Append => 2,
        Function::Interpolate | Function::Substitute => 3,
        Function::Nnf
        | Function::Simplify
        | Function::Goedel
        | Function::Boxdot
        | Function::Vars
        | Function::Depth
        | Function::Count
        | Function::Length
        | Function::Smallest
        | Function::Trace
        | Function::Letterless
        | Function::Shared => 1,
    }
}
