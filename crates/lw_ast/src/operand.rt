ghost use Rattle.std.specs.Prelude.{◌≡◌, ℕ, true, false, List, slice_index, IfOk, IfErr};
ghost use Rattle.lw_formula.specs.Name.{is_upper};
ghost use Rattle.lw_read.specs.Tokens.{decimal};
ghost use Rattle.lw_ast.specs.Trees.{number, text};
ghost use Rattle.lw_ast.specs.ScriptLexemes.{Atom, Deny, CloseList, name_sign, quoted};
ghost use Rattle.lw_ast.specs.Private.ScriptMachine.{begin, open_call};
ghost use Rattle.lw_ast.specs.Private.ReaderViews.{lexeme, frames, setting_of, state_of, IsStep, IsRefused};

use crate::construct::Unfinished;
use crate::expr::{Expr, Exprs};
use crate::function::Function;
use crate::part::Part;
use crate::stack::{fitted, waiting};
use crate::state::{Progress, Setting};
use crate::word::{decimal, is_long, is_long_variable, is_upper, quoted};
use lw_formula::{Chars, Name, NameFault};
use lw_read::{TextFault, Token};
use std::alloc::Global;

// Takes a number.
fn number(
    token: Token,
    digits: &[u8],
    stack: Vec<Unfinished>,
    setting: Setting,
) -> Result<Progress, TextFault>
    ensures ok { IfOk result (λ next. let t = Atom (number (decimal digits.now)) in
        IsStep t (begin t (frames stack.items) (setting_of setting)) next) }
    ensures fault { IfErr result (λ fault. let t = Atom (number (decimal digits.now)) in
        IsRefused t (begin t (frames stack.items) (setting_of setting)) token fault) }
{
    match decimal(digits) {
        Some(number) => Ok(Progress::Operand(Expr::Number(number), stack, setting)),
        None => Err(TextFault::TooLong { token }),
    }
}

// Takes a text.
fn text(
    alloc: Global,
    token: Token,
    bytes: &[u8],
    stack: Vec<Unfinished>,
    setting: Setting,
) -> Result<Progress, TextFault>
    ensures ok { IfOk result (λ next. let t = Atom (text (quoted bytes.now)) in
        IsStep t (begin t (frames stack.items) (setting_of setting)) next) }
    ensures fault { IfErr result (λ fault. let t = Atom (text (quoted bytes.now)) in
        IsRefused t (begin t (frames stack.items) (setting_of setting)) token fault) }
{
    let text = Chars::from_bytes(alloc, quoted(bytes))?;
    Ok(Progress::Operand(Expr::Text(text), stack, setting))
}

// Takes a script variable.
#[tactic(auto, unfolding(crate::specs::ScriptLexemes::name_sign))]
fn upper(
    alloc: Global,
    token: Token,
    word: &[u8],
    stack: Vec<Unfinished>,
    setting: Setting,
) -> Result<Progress, TextFault>
    requires { is_upper (slice_index word.now 0) ≡ true }
    ensures ok { IfOk result (λ next. (line : ℕ) → let t = name_sign line word.now in
        IsStep t (begin t (frames stack.items) (setting_of setting)) next) }
    ensures fault { IfErr result (λ fault. (line : ℕ) → let t = name_sign line word.now in
        IsRefused t (begin t (frames stack.items) (setting_of setting)) token fault) }
{
    if is_long(word) {
        return Err(TextFault::TooLong { token });
    }
    let name = Chars::from_bytes(alloc, word)?;
    Ok(Progress::Operand(Expr::Upper(name), stack, setting))
}

// Takes a propositional variable.
#[tactic(auto, unfolding(crate::specs::ScriptLexemes::name_sign))]
fn variable(
    alloc: Global,
    token: Token,
    word: &[u8],
    stack: Vec<Unfinished>,
    setting: Setting,
) -> Result<Progress, TextFault>
    requires { is_upper (slice_index word.now 0) ≡ false }
    ensures ok { IfOk result (λ next. (line : ℕ) → let t = name_sign line word.now in
        IsStep t (begin t (frames stack.items) (setting_of setting)) next) }
    ensures fault { IfErr result (λ fault. (line : ℕ) → let t = name_sign line word.now in
        IsRefused t (begin t (frames stack.items) (setting_of setting)) token fault) }
{
    match Name::from_bytes(alloc, word) {
        Ok(name) => Ok(Progress::Operand(Expr::Var(name), stack, setting)),
        Err(NameFault::Memory) => Err(TextFault::Memory),
        Err(NameFault::BadName) => {
            if is_long_variable(word) {
                Err(TextFault::TooLong { token })
            } else {
                Err(TextFault::Unexpected { token })
            }
        }
    }
}

// Takes a word that is a variable or nothing.
fn word(
    alloc: Global,
    token: Token,
    word: &[u8],
    stack: Vec<Unfinished>,
    setting: Setting,
) -> Result<Progress, TextFault>
    ensures ok { IfOk result (λ next. (line : ℕ) → let t = name_sign line word.now in
        IsStep t (begin t (frames stack.items) (setting_of setting)) next) }
    ensures fault { IfErr result (λ fault. (line : ℕ) → let t = name_sign line word.now in
        IsRefused t (begin t (frames stack.items) (setting_of setting)) token fault) }
{
    if is_upper(word) {
        upper(alloc, token, word, stack, setting)
    } else {
        variable(alloc, token, word, stack, setting)
    }
}

// Takes a `]` where an operand might stand.
fn empty_list(token: Token, stack: Vec<Unfinished>, setting: Setting) -> Result<Progress, TextFault>
    ensures ok { IfOk result (λ next. IsStep CloseList (begin CloseList (frames stack.items) (setting_of setting)) next) }
    ensures fault { IfErr result (λ fault.
        IsRefused CloseList (begin CloseList (frames stack.items) (setting_of setting)) token fault) }
{
    let mut stack = stack;
    match stack.pop() {
        Some(Unfinished::Listed(items)) => {
            if items.count() == 0 {
                Ok(Progress::Operand(Expr::List(items), stack, setting))
            } else {
                Err(TextFault::Unexpected { token })
            }
        }
        _ => Err(TextFault::Unexpected { token }),
    }
}

/// Takes a token where an operand is needed.
pub fn begun(
    alloc: Global,
    token: Token,
    part: Part,
    bytes: &[u8],
    stack: Vec<Unfinished>,
    setting: Setting,
) -> Result<Progress, TextFault>
    ensures ok { IfOk result (λ next. (line : ℕ) → let t = lexeme part line bytes.now in
        IsStep t (begin t (frames stack.items) (setting_of setting)) next) }
    ensures fault { IfErr result (λ fault. (line : ℕ) → let t = lexeme part line bytes.now in
        IsRefused t (begin t (frames stack.items) (setting_of setting)) token fault) }
{
    match part {
        Part::Word => word(alloc, token, bytes, stack, setting),
        Part::Number => number(token, bytes, stack, setting),
        Part::Text => text(alloc, token, bytes, stack, setting),
        Part::Top => Ok(Progress::Operand(Expr::Top, stack, setting)),
        Part::Bot => Ok(Progress::Operand(Expr::Bot, stack, setting)),
        Part::Truth(is) => Ok(Progress::Operand(Expr::Truth(is), stack, setting)),
        Part::Nothing => Ok(Progress::Operand(Expr::Nothing, stack, setting)),
        Part::Logic(logic) => Ok(Progress::Operand(Expr::Logic(logic), stack, setting)),
        Part::Before(sign) => Ok(waiting(stack, setting, Unfinished::Prefixed(sign))?),
        Part::Deny => fitted(token, 3, stack, setting, Unfinished::Denied),
        Part::Open => Ok(waiting(stack, setting, Unfinished::Bracket)?),
        Part::OpenList => { Ok(waiting(stack, setting, Unfinished::Listed(Exprs::new(alloc)))?) }
        Part::CloseList => empty_list(token, stack, setting),
        Part::Calls(function) => Ok(Progress::Calling(function, stack, setting)),
        Part::Between(_)
        | Part::Compare(_)
        | Part::Chained(_, _)
        | Part::Close
        | Part::Comma
        | Part::Becomes
        | Part::Semicolon
        | Part::Print
        | Part::If
        | Part::Then
        | Part::Else
        | Part::End
        | Part::For
        | Part::To
        | Part::In
        | Part::Do
        | Part::While
        | Part::Stops
        | Part::Foreign => Err(TextFault::Unexpected { token }),
    }
}

/// Takes a token behind the word of a function.
#[tactic(auto, using(crate::proofs::StrayTokens::open_call_stray))]
pub fn called(
    alloc: Global,
    token: Token,
    part: Part,
    function: Function,
    stack: Vec<Unfinished>,
    setting: Setting,
) -> Result<Progress, TextFault>
    ensures ok { IfOk result (λ next. (line : ℕ) (bytes : List ℕ) → let t = lexeme part line bytes in
        IsStep t (open_call t function (frames stack.items) (setting_of setting)) next) }
    ensures fault { IfErr result (λ fault. (line : ℕ) (bytes : List ℕ) → let t = lexeme part line bytes in
        IsRefused t (open_call t function (frames stack.items) (setting_of setting)) token fault) }
{
    match part {
        Part::Open => Ok(waiting(
            stack,
            setting,
            Unfinished::Called(function, Exprs::new(alloc)),
        )?),
        _ => Err(TextFault::Unexpected { token }),
    }
}
