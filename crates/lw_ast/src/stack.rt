ghost use Rattle.std.specs.Prelude.{◌≡◌, ℕ, false, IfOk, IfErr, ◌∷◌};
ghost use Rattle.lw_ast.specs.ScriptLexemes.{ScriptLexeme, is_long};
ghost use Rattle.lw_ast.specs.Private.ScriptMachine.{Need, hole, top_hole, where_fits};
ghost use Rattle.lw_ast.specs.Private.ReaderViews.{frame, frames, setting_of, state_of, IsRefused};

use crate::construct::{Unfinished, link_level, series_level};
use crate::state::{Progress, Setting};
use lw_read::{TextFault, Token};
use std::alloc::AllocError;

// The least level of the construct's operand.
fn hole(construct: &Unfinished) -> u8
    ensures { result ≡ hole (frame construct.now) }
{
    match construct {
        Unfinished::Prefixed(_) => 11,
        Unfinished::Denied => 3,
        Unfinished::Left(link, _) => link_level(*link),
        Unfinished::Compared(_, _) => 5,
        Unfinished::Linked(series, _, _, _) => series_level(*series) + 1,
        Unfinished::Bracket | Unfinished::Listed(_) | Unfinished::Called(_, _) => 1,
    }
}

// The least level of an operand of the innermost construct, or of a whole expression.
fn top_hole(stack: &[Unfinished]) -> u8
    ensures { result ≡ top_hole (frames stack.now) }
{
    match stack.last() {
        Some(construct) => hole(construct),
        None => 1,
    }
}

/// A construct more waits for an operand.
pub fn waiting(
    stack: Vec<Unfinished>,
    setting: Setting,
    construct: Unfinished,
) -> Result<Progress, AllocError>
    ensures { IfOk result (λ next. state_of next ≡ Need (frame construct ∷ frames stack.items) (setting_of setting)) }
{
    let mut stack = stack;
    stack.push(construct)?;
    Ok(Progress::Needed(stack, setting))
}

/// A construct more waits for an operand, where the innermost one takes an expression of this level.
pub fn fitted(
    token: Token,
    level: u8,
    stack: Vec<Unfinished>,
    setting: Setting,
    construct: Unfinished,
) -> Result<Progress, TextFault>
    ensures ok { IfOk result (λ next.
        state_of next
        ≡ where_fits level (frames stack.items) (Need (frame construct ∷ frames stack.items) (setting_of setting))) }
    ensures fault { IfErr result (λ fault. (t : ScriptLexeme) → is_long t ≡ false →
        let needed = Need (frame construct ∷ frames stack.items) (setting_of setting) in
        IsRefused t (where_fits level (frames stack.items) needed) token fault) }
{
    if top_hole(stack.as_slice()) <= level {
        Ok(waiting(stack, setting, construct)?)
    } else {
        Err(TextFault::Unexpected { token })
    }
}
