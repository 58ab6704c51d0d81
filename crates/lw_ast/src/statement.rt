ghost use Rattle.std.specs.Prelude.{◌≡◌, IfOk, IfErr, [], ◌∷◌};
ghost use Rattle.lw_ast.specs.Trees.{over, behind, at};
ghost use Rattle.lw_ast.specs.ScriptLexemes.{End, Else, Stops, Semicolon, Then, To, Do};
ghost use Rattle.lw_ast.specs.ScriptViews.{expression, statements, kind as kind_of_statement};
ghost use Rattle.lw_ast.specs.Private.ScriptMachine.{Need, At, In', Within, kind_of, end, otherwise, stop, leave};
ghost use Rattle.lw_ast.specs.Private.ReaderViews.{head_of, compound_of, bodies_of, setting_of, state_of, IsStep, IsRefused};

use crate::expr::Expr;
use crate::script::{Block, Stmt, StmtKind};
use crate::state::{Compound, Enclosing, Head, Progress, Setting};
use lw_read::{TextFault, Token};
use std::alloc::{AllocError, Global};

/// An expression is needed for this, at its first token.
pub fn needed(
    alloc: Global,
    bodies: Vec<Enclosing>,
    before: Block,
    line: usize,
    head: Head,
) -> Progress
    ensures { state_of result ≡ Need [] (In' (bodies_of bodies.items) (statements before) line (head_of head)) }
{
    let setting = Setting {
        bodies,
        before,
        line,
        head,
    };
    Progress::Needed(Vec::new(alloc), setting)
}

// A whole statement more.
fn finished(
    bodies: Vec<Enclosing>,
    before: Block,
    line: usize,
    kind: StmtKind,
) -> Result<Progress, AllocError>
    ensures { IfOk result (λ next.
        state_of next ≡ At (behind (statements before) (at line (kind_of_statement kind))) (bodies_of bodies.items)) }
{
    let mut before = before;
    before.push(Stmt { line, kind })?;
    Ok(Progress::Between(bodies, before))
}

// The statements in a statement begin.
fn opened(
    alloc: Global,
    bodies: Vec<Enclosing>,
    before: Block,
    line: usize,
    shape: Compound,
) -> Result<Progress, AllocError>
    ensures { IfOk result (λ next.
        state_of next ≡ At over (Within (statements before) line (compound_of shape) ∷ bodies_of bodies.items)) }
{
    let mut bodies = bodies;
    bodies.push(Enclosing {
        before,
        line,
        shape,
    })?;
    Ok(Progress::Between(bodies, Block::new(alloc)))
}

// The statement with the statements in it.
fn whole(alloc: Global, shape: Compound, body: Block) -> StmtKind
    ensures { kind_of_statement result ≡ kind_of (compound_of shape) (statements body) }
{
    match shape {
        Compound::Yes(test) => StmtKind::If(test, body, Block::new(alloc)),
        Compound::No(test, first) => StmtKind::If(test, first, body),
        Compound::Counted(name, first, last) => StmtKind::Count(name, first, last, body),
        Compound::EachOf(name, list) => StmtKind::Each(name, list, body),
        Compound::Repeated(test) => StmtKind::While(test, body),
    }
}

/// Takes an `end`.
pub fn ended(
    alloc: Global,
    token: Token,
    bodies: Vec<Enclosing>,
    body: Block,
) -> Result<Progress, TextFault>
    ensures ok { IfOk result (λ next. IsStep End (end (statements body) (bodies_of bodies.items)) next) }
    ensures fault { IfErr result (λ fault. IsRefused End (end (statements body) (bodies_of bodies.items)) token fault) }
{
    let mut bodies = bodies;
    match bodies.pop() {
        Some(
            Enclosing {
                before,
                line,
                shape,
            },
        ) => Ok(finished(bodies, before, line, whole(alloc, shape, body))?),
        None => Err(TextFault::Unexpected { token }),
    }
}

/// Takes an `else`.
pub fn otherwise(
    alloc: Global,
    token: Token,
    bodies: Vec<Enclosing>,
    body: Block,
) -> Result<Progress, TextFault>
    ensures ok { IfOk result (λ next. IsStep Else (otherwise (statements body) (bodies_of bodies.items)) next) }
    ensures fault { IfErr result (λ fault.
        IsRefused Else (otherwise (statements body) (bodies_of bodies.items)) token fault) }
{
    let mut bodies = bodies;
    match bodies.pop() {
        Some(
            Enclosing {
                before,
                line,
                shape,
            },
        ) => match shape {
            Compound::Yes(test) => {
                Ok(opened(alloc, bodies, before, line, Compound::No(test, body))?)
            }
            Compound::No(_, _)
            | Compound::Counted(_, _, _)
            | Compound::EachOf(_, _)
            | Compound::Repeated(_) => Err(TextFault::Unexpected { token }),
        },
        None => Err(TextFault::Unexpected { token }),
    }
}

/// Takes the end of the text.
pub fn stopped(token: Token, bodies: Vec<Enclosing>, body: Block) -> Result<Progress, TextFault>
    ensures ok { IfOk result (λ next. IsStep Stops (stop (statements body) (bodies_of bodies.items)) next) }
    ensures fault { IfErr result (λ fault. IsRefused Stops (stop (statements body) (bodies_of bodies.items)) token fault) }
{
    if bodies.is_empty() {
        Ok(Progress::Over(body))
    } else {
        Err(TextFault::Unexpected { token })
    }
}

/// Takes a `;` behind an expression.
pub fn semicolon(token: Token, value: Expr, setting: Setting) -> Result<Progress, TextFault>
    ensures ok { IfOk result (λ next. IsStep Semicolon (leave Semicolon (expression value) (setting_of setting)) next) }
    ensures fault { IfErr result (λ fault.
        IsRefused Semicolon (leave Semicolon (expression value) (setting_of setting)) token fault) }
{
    let Setting {
        bodies,
        before,
        line,
        head,
    } = setting;
    match head {
        Head::Assigning(name) => Ok(finished(bodies, before, line, StmtKind::Assign(name, value))?),
        Head::Printing(mut values) => {
            values.push(value)?;
            Ok(finished(bodies, before, line, StmtKind::Print(values))?)
        }
        Head::Choosing
        | Head::Counting(_)
        | Head::Bounding(_, _)
        | Head::Listing(_)
        | Head::Repeating => Err(TextFault::Unexpected { token }),
    }
}

/// Takes a `then` behind an expression.
pub fn then(
    alloc: Global,
    token: Token,
    value: Expr,
    setting: Setting,
) -> Result<Progress, TextFault>
    ensures ok { IfOk result (λ next. IsStep Then (leave Then (expression value) (setting_of setting)) next) }
    ensures fault { IfErr result (λ fault. IsRefused Then (leave Then (expression value) (setting_of setting)) token fault) }
{
    let Setting {
        bodies,
        before,
        line,
        head,
    } = setting;
    match head {
        Head::Choosing => Ok(opened(alloc, bodies, before, line, Compound::Yes(value))?),
        Head::Assigning(_)
        | Head::Printing(_)
        | Head::Counting(_)
        | Head::Bounding(_, _)
        | Head::Listing(_)
        | Head::Repeating => Err(TextFault::Unexpected { token }),
    }
}

/// Takes a `to` behind an expression.
pub fn to(alloc: Global, token: Token, value: Expr, setting: Setting) -> Result<Progress, TextFault>
    ensures ok { IfOk result (λ next. IsStep To (leave To (expression value) (setting_of setting)) next) }
    ensures fault { IfErr result (λ fault. IsRefused To (leave To (expression value) (setting_of setting)) token fault) }
{
    let Setting {
        bodies,
        before,
        line,
        head,
    } = setting;
    match head {
        Head::Counting(name) => Ok(needed(
            alloc,
            bodies,
            before,
            line,
            Head::Bounding(name, value),
        )),
        Head::Assigning(_)
        | Head::Printing(_)
        | Head::Choosing
        | Head::Bounding(_, _)
        | Head::Listing(_)
        | Head::Repeating => Err(TextFault::Unexpected { token }),
    }
}

/// Takes a `do` behind an expression.
pub fn begin_body(
    alloc: Global,
    token: Token,
    value: Expr,
    setting: Setting,
) -> Result<Progress, TextFault>
    ensures ok { IfOk result (λ next. IsStep Do (leave Do (expression value) (setting_of setting)) next) }
    ensures fault { IfErr result (λ fault. IsRefused Do (leave Do (expression value) (setting_of setting)) token fault) }
{
    let Setting {
        bodies,
        before,
        line,
        head,
    } = setting;
    let shape = match head {
        Head::Bounding(name, first) => Compound::Counted(name, first, value),
        Head::Listing(name) => Compound::EachOf(name, value),
        Head::Repeating => Compound::Repeated(value),
        Head::Assigning(_) | Head::Printing(_) | Head::Choosing | Head::Counting(_) => {
            return Err(TextFault::Unexpected { token });
        }
    };
    Ok(opened(alloc, bodies, before, line, shape)?)
}
