ghost use Rattle.std.specs.Prelude.{◌≡◌, ℕ, List, IfOk, IfErr};
ghost use Rattle.lw_ast.specs.ScriptLexemes.{name_sign};
ghost use Rattle.lw_ast.specs.ScriptViews.{statements};
ghost use Rattle.lw_ast.specs.Private.ScriptMachine.{state, name, loop, loop_name};
ghost use Rattle.lw_ast.specs.Private.ReaderViews.{lexeme, bodies_of, state_of, IsStep, IsRefused};

use crate::expr::Exprs;
use crate::part::Part;
use crate::script::Block;
use crate::state::{Enclosing, Head, Progress};
use crate::statement::{ended, needed, otherwise, stopped};
use crate::word::{is_long, is_upper};
use lw_formula::Chars;
use lw_read::{TextFault, Token};
use std::alloc::Global;

// Takes a word with which an assignment may begin.
#[tactic(auto, unfolding(crate::specs::ScriptLexemes::name_sign))]
fn named(
    alloc: Global,
    token: Token,
    line: usize,
    word: &[u8],
    bodies: Vec<Enclosing>,
    before: Block,
) -> Result<Progress, TextFault>
    ensures ok { IfOk result (λ next. let t = name_sign line word.now in
        IsStep t (state t (statements before) (bodies_of bodies.items)) next) }
    ensures fault { IfErr result (λ fault. let t = name_sign line word.now in
        IsRefused t (state t (statements before) (bodies_of bodies.items)) token fault) }
{
    if !is_upper(word) {
        return Err(TextFault::Unexpected { token });
    }
    if is_long(word) {
        return Err(TextFault::TooLong { token });
    }
    let name = Chars::from_bytes(alloc, word)?;
    Ok(Progress::Named(name, line, bodies, before))
}

/// Takes a token where a statement may begin, at a line.
pub fn begun_statement(
    alloc: Global,
    token: Token,
    part: Part,
    line: usize,
    bytes: &[u8],
    bodies: Vec<Enclosing>,
    before: Block,
) -> Result<Progress, TextFault>
    ensures ok { IfOk result (λ next. let t = lexeme part line bytes.now in
        IsStep t (state t (statements before) (bodies_of bodies.items)) next) }
    ensures fault { IfErr result (λ fault. let t = lexeme part line bytes.now in
        IsRefused t (state t (statements before) (bodies_of bodies.items)) token fault) }
{
    match part {
        Part::Word => named(alloc, token, line, bytes, bodies, before),
        Part::Print => {
            let head = Head::Printing(Exprs::new(alloc));
            Ok(needed(alloc, bodies, before, line, head))
        }
        Part::If => Ok(needed(alloc, bodies, before, line, Head::Choosing)),
        Part::For => Ok(Progress::Looping(line, bodies, before)),
        Part::While => Ok(needed(alloc, bodies, before, line, Head::Repeating)),
        Part::End => ended(alloc, token, bodies, before),
        Part::Else => otherwise(alloc, token, bodies, before),
        Part::Stops => stopped(token, bodies, before),
        _ => Err(TextFault::Unexpected { token }),
    }
}

/// Takes a token behind the variable, and its line, with which a statement begins.
#[tactic(auto, using(crate::proofs::StrayTokens::name_stray))]
pub fn assigned(
    alloc: Global,
    token: Token,
    part: Part,
    variable: Chars,
    line: usize,
    bodies: Vec<Enclosing>,
    before: Block,
) -> Result<Progress, TextFault>
    ensures ok { IfOk result (λ next. (here : ℕ) (bytes : List ℕ) → let t = lexeme part here bytes in
        IsStep t (name t variable line (statements before) (bodies_of bodies.items)) next) }
    ensures fault { IfErr result (λ fault. (here : ℕ) (bytes : List ℕ) → let t = lexeme part here bytes in
        IsRefused t (name t variable line (statements before) (bodies_of bodies.items)) token fault) }
{
    match part {
        Part::Becomes => Ok(needed(alloc, bodies, before, line, Head::Assigning(variable))),
        _ => Err(TextFault::Unexpected { token }),
    }
}

// Takes a word behind `for`, whose line this is.
#[tactic(auto, unfolding(crate::specs::ScriptLexemes::name_sign))]
fn loop_variable(
    alloc: Global,
    token: Token,
    line: usize,
    word: &[u8],
    bodies: Vec<Enclosing>,
    before: Block,
) -> Result<Progress, TextFault>
    ensures ok { IfOk result (λ next. (here : ℕ) → let t = name_sign here word.now in
        IsStep t (loop t line (statements before) (bodies_of bodies.items)) next) }
    ensures fault { IfErr result (λ fault. (here : ℕ) → let t = name_sign here word.now in
        IsRefused t (loop t line (statements before) (bodies_of bodies.items)) token fault) }
{
    if !is_upper(word) {
        return Err(TextFault::Unexpected { token });
    }
    if is_long(word) {
        return Err(TextFault::TooLong { token });
    }
    let variable = Chars::from_bytes(alloc, word)?;
    Ok(Progress::LoopNamed(variable, line, bodies, before))
}

/// Takes a token behind `for`, whose line this is.
#[tactic(auto, using(crate::proofs::StrayTokens::loop_stray))]
pub fn looped(
    alloc: Global,
    token: Token,
    part: Part,
    line: usize,
    bytes: &[u8],
    bodies: Vec<Enclosing>,
    before: Block,
) -> Result<Progress, TextFault>
    ensures ok { IfOk result (λ next. (here : ℕ) → let t = lexeme part here bytes.now in
        IsStep t (loop t line (statements before) (bodies_of bodies.items)) next) }
    ensures fault { IfErr result (λ fault. (here : ℕ) → let t = lexeme part here bytes.now in
        IsRefused t (loop t line (statements before) (bodies_of bodies.items)) token fault) }
{
    match part {
        Part::Word => loop_variable(alloc, token, line, bytes, bodies, before),
        _ => Err(TextFault::Unexpected { token }),
    }
}

/// Takes a token behind `for` and its variable.
#[tactic(auto, using(crate::proofs::StrayTokens::loop_name_stray))]
pub fn loop_begun(
    alloc: Global,
    token: Token,
    part: Part,
    variable: Chars,
    line: usize,
    bodies: Vec<Enclosing>,
    before: Block,
) -> Result<Progress, TextFault>
    ensures ok { IfOk result (λ next. (here : ℕ) (bytes : List ℕ) → let t = lexeme part here bytes in
        IsStep t (loop_name t variable line (statements before) (bodies_of bodies.items)) next) }
    ensures fault { IfErr result (λ fault. (here : ℕ) (bytes : List ℕ) → let t = lexeme part here bytes in
        IsRefused t (loop_name t variable line (statements before) (bodies_of bodies.items)) token fault) }
{
    match part {
        Part::Becomes => Ok(needed(alloc, bodies, before, line, Head::Counting(variable))),
        Part::In => Ok(needed(alloc, bodies, before, line, Head::Listing(variable))),
        _ => Err(TextFault::Unexpected { token }),
    }
}
