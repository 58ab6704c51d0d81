ghost use Rattle.std.specs.Prelude.{◌≡◌, ℕ, List, [], IfOk, IfErr};
ghost use Rattle.lw_ast.specs.ScriptLexemes.{Chained, Close, CloseList, Comma};
ghost use Rattle.lw_ast.specs.ScriptViews.{expression};
ghost use Rattle.lw_ast.specs.Private.ScriptMachine.{Have, script_constructs, sign_level, step, go_on, chain, is_chained, close, close_list, comma, leave_all};
ghost use Rattle.lw_ast.specs.Private.ReaderViews.{lexeme, frames, setting_of, state_of, IsStep, IsRefused};

use crate::construct::{Unfinished, link_level, series_level};
use crate::expr::{Expr, Terms};
use crate::operator::{Op, Series};
use crate::part::{Part, arity};
use crate::stack::{fitted, waiting};
use crate::state::{Head, Progress, Setting};
use crate::statement::{begin_body, semicolon, then, to};
use lw_read::{TextFault, Token, end_tighter};
use std::alloc::Global;

// How tightly a token binds behind an operand.
fn sign_level(part: Part) -> u8
    ensures { (line : ℕ) (bytes : List ℕ) → result ≡ sign_level (lexeme part line bytes) }
{
    match part {
        Part::Between(link) => link_level(link),
        Part::Compare(_) => 4,
        Part::Chained(series, _) => series_level(series),
        _ => 0,
    }
}

// Whether the innermost construct is a sum, or a product, that may have a further sign.
fn is_chained(series: Series, stack: &[Unfinished]) -> bool
    ensures { result ≡ is_chained series (frames stack.now) }
{
    match stack.last() {
        Some(Unfinished::Linked(open, _, _, _)) => *open == series,
        _ => false,
    }
}

// Takes a sign of a sum or a product.
fn chained(
    alloc: Global,
    token: Token,
    series: Series,
    sign: Op,
    operand: Expr,
    stack: Vec<Unfinished>,
    setting: Setting,
) -> Result<Progress, TextFault>
    ensures ok { IfOk result (λ next.
        IsStep (Chained series sign) (chain series sign (expression operand) (frames stack.items) (setting_of setting)) next) }
    ensures fault { IfErr result (λ fault.
        let s = chain series sign (expression operand) (frames stack.items) (setting_of setting) in
        IsRefused (Chained series sign) s token fault) }
{
    let mut stack = stack;
    if !is_chained(series, stack.as_slice()) {
        let construct = Unfinished::Linked(series, operand, Terms::new(alloc), sign);
        return fitted(token, series_level(series), stack, setting, construct);
    }
    match stack.pop() {
        Some(Unfinished::Linked(_, first, mut terms, last)) => {
            terms.push(last, operand)?;
            Ok(waiting(
                stack,
                setting,
                Unfinished::Linked(series, first, terms, sign),
            )?)
        }
        _ => unreachable!(),
    }
}

// Takes a `)`.
fn closed(
    token: Token,
    operand: Expr,
    stack: Vec<Unfinished>,
    setting: Setting,
) -> Result<Progress, TextFault>
    ensures ok { IfOk result (λ next.
        IsStep Close (close (expression operand) (frames stack.items) (setting_of setting)) next) }
    ensures fault { IfErr result (λ fault.
        IsRefused Close (close (expression operand) (frames stack.items) (setting_of setting)) token fault) }
{
    let mut stack = stack;
    match stack.pop() {
        Some(Unfinished::Bracket) => Ok(Progress::Operand(operand, stack, setting)),
        Some(Unfinished::Called(function, mut arguments)) => {
            if arguments.count() != arity(function) - 1 {
                return Err(TextFault::Unexpected { token });
            }
            arguments.push(operand)?;
            Ok(Progress::Operand(Expr::Call(function, arguments), stack, setting))
        }
        Some(_) => Err(TextFault::Unexpected { token }),
        None => Err(TextFault::Unexpected { token }),
    }
}

// Takes a `]`.
fn closed_list(
    token: Token,
    operand: Expr,
    stack: Vec<Unfinished>,
    setting: Setting,
) -> Result<Progress, TextFault>
    ensures ok { IfOk result (λ next.
        IsStep CloseList (close_list (expression operand) (frames stack.items) (setting_of setting)) next) }
    ensures fault { IfErr result (λ fault.
        IsRefused CloseList (close_list (expression operand) (frames stack.items) (setting_of setting)) token fault) }
{
    let mut stack = stack;
    match stack.pop() {
        Some(Unfinished::Listed(mut items)) => {
            items.push(operand)?;
            Ok(Progress::Operand(Expr::List(items), stack, setting))
        }
        Some(_) => Err(TextFault::Unexpected { token }),
        None => Err(TextFault::Unexpected { token }),
    }
}

// Takes a comma outside of brackets.
fn printed(
    token: Token,
    operand: Expr,
    stack: Vec<Unfinished>,
    setting: Setting,
) -> Result<Progress, TextFault>
    requires { frames stack.items ≡ [] }
    ensures ok { IfOk result (λ next. IsStep Comma (comma (expression operand) [] (setting_of setting)) next) }
    ensures fault { IfErr result (λ fault.
        IsRefused Comma (comma (expression operand) [] (setting_of setting)) token fault) }
{
    let Setting {
        bodies,
        before,
        line,
        head,
    } = setting;
    match head {
        Head::Printing(mut values) => {
            values.push(operand)?;
            let setting = Setting {
                bodies,
                before,
                line,
                head: Head::Printing(values),
            };
            Ok(Progress::Needed(stack, setting))
        }
        Head::Assigning(_)
        | Head::Choosing
        | Head::Counting(_)
        | Head::Bounding(_, _)
        | Head::Listing(_)
        | Head::Repeating => Err(TextFault::Unexpected { token }),
    }
}

// Takes a comma.
fn parted(
    token: Token,
    operand: Expr,
    stack: Vec<Unfinished>,
    setting: Setting,
) -> Result<Progress, TextFault>
    ensures ok { IfOk result (λ next.
        IsStep Comma (comma (expression operand) (frames stack.items) (setting_of setting)) next) }
    ensures fault { IfErr result (λ fault.
        IsRefused Comma (comma (expression operand) (frames stack.items) (setting_of setting)) token fault) }
{
    let mut stack = stack;
    match stack.pop() {
        Some(Unfinished::Listed(mut items)) => {
            items.push(operand)?;
            Ok(waiting(stack, setting, Unfinished::Listed(items))?)
        }
        Some(Unfinished::Called(function, mut arguments)) => {
            if arguments.count() >= arity(function) - 1 {
                return Err(TextFault::Unexpected { token });
            }
            arguments.push(operand)?;
            Ok(waiting(stack, setting, Unfinished::Called(function, arguments))?)
        }
        Some(_) => Err(TextFault::Unexpected { token }),
        None => printed(token, operand, stack, setting),
    }
}

// Takes a token that may end an expression of a statement.
fn left(
    alloc: Global,
    token: Token,
    part: Part,
    operand: Expr,
    stack: Vec<Unfinished>,
    setting: Setting,
) -> Result<Progress, TextFault>
    ensures ok { IfOk result (λ next. (line : ℕ) (bytes : List ℕ) → let t = lexeme part line bytes in
        IsStep t (leave_all t (expression operand) (frames stack.items) (setting_of setting)) next) }
    ensures fault { IfErr result (λ fault. (line : ℕ) (bytes : List ℕ) → let t = lexeme part line bytes in
        IsRefused t (leave_all t (expression operand) (frames stack.items) (setting_of setting)) token fault) }
{
    if !stack.is_empty() {
        return Err(TextFault::Unexpected { token });
    }
    match part {
        Part::Semicolon => semicolon(token, operand, setting),
        Part::Then => then(alloc, token, operand, setting),
        Part::To => to(alloc, token, operand, setting),
        Part::Do => begin_body(alloc, token, operand, setting),
        _ => Err(TextFault::Unexpected { token }),
    }
}

// Takes a token behind an operand, once the constructs that bind tighter are ended.
fn settled(
    alloc: Global,
    token: Token,
    part: Part,
    operand: Expr,
    stack: Vec<Unfinished>,
    setting: Setting,
) -> Result<Progress, TextFault>
    ensures ok { IfOk result (λ next. (line : ℕ) (bytes : List ℕ) → let t = lexeme part line bytes in
        IsStep t (go_on (setting_of setting) t (expression operand) (frames stack.items)) next) }
    ensures fault { IfErr result (λ fault. (line : ℕ) (bytes : List ℕ) → let t = lexeme part line bytes in
        IsRefused t (go_on (setting_of setting) t (expression operand) (frames stack.items)) token fault) }
{
    match part {
        Part::Between(link) => {
            let construct = Unfinished::Left(link, operand);
            fitted(token, link_level(link), stack, setting, construct)
        }
        Part::Compare(relation) => {
            let construct = Unfinished::Compared(relation, operand);
            fitted(token, 4, stack, setting, construct)
        }
        Part::Chained(series, sign) => {
            chained(alloc, token, series, sign, operand, stack, setting)
        }
        Part::Close => closed(token, operand, stack, setting),
        Part::CloseList => closed_list(token, operand, stack, setting),
        Part::Comma => parted(token, operand, stack, setting),
        _ => left(alloc, token, part, operand, stack, setting),
    }
}

/// Takes a token where an operand is there.
pub fn gone_on(
    alloc: Global,
    token: Token,
    part: Part,
    operand: Expr,
    stack: Vec<Unfinished>,
    setting: Setting,
) -> Result<Progress, TextFault>
    ensures ok { IfOk result (λ next. (line : ℕ) (bytes : List ℕ) → let t = lexeme part line bytes in
        IsStep t (step t (Have (expression operand) (frames stack.items) (setting_of setting))) next) }
    ensures fault { IfErr result (λ fault. (line : ℕ) (bytes : List ℕ) → let t = lexeme part line bytes in
        IsRefused t (step t (Have (expression operand) (frames stack.items) (setting_of setting))) token fault) }
{
    let mut stack = stack;
    let operand = end_tighter(alloc, sign_level(part), operand, &mut stack)?;
    settled(alloc, token, part, operand, stack, setting)
}
