ghost use Rattle.std.specs.Prelude.{◌≡◌, ◌^◌, ◌-◌, min, sum_by};
ghost use Rattle.lw_ast.specs.Private.ScriptMachine.{weight, head_weight, base, load, height};
ghost use Rattle.lw_ast.specs.Private.ReaderViews.{frame, frames, head_of, setting_of, state_of};

use crate::construct::Unfinished;
use crate::state::{Head, Progress, Setting};

// How many signs are unfinished in the construct.
fn weight(construct: &Unfinished) -> usize
    ensures { result ≡ min (weight (frame construct.now)) (2 ^ 64 - 1) }
{
    match construct {
        Unfinished::Linked(_, _, terms, _) => terms.count().saturating_add(1),
        Unfinished::Prefixed(_)
        | Unfinished::Denied
        | Unfinished::Left(_, _)
        | Unfinished::Compared(_, _)
        | Unfinished::Bracket
        | Unfinished::Listed(_)
        | Unfinished::Called(_, _) => 1,
    }
}

// How many are unfinished in the constructs of an expression.
fn weights(stack: &[Unfinished]) -> usize
    ensures { result ≡ min (sum_by weight (frames stack.now)) (2 ^ 64 - 1) }
{
    let mut total = 0usize;
    for construct in stack {
        total = total.saturating_add(weight(construct));
    }
    total
}

// How many constructs of statements are unfinished while an expression is read.
fn base(setting: &Setting) -> usize
    ensures { result ≡ base (setting_of setting.now) }
{
    let depth = setting.bodies.len();
    match setting.head {
        Head::Assigning(_) | Head::Printing(_) => depth,
        Head::Choosing
        | Head::Counting(_)
        | Head::Bounding(_, _)
        | Head::Listing(_)
        | Head::Repeating => depth + 1,
    }
}

// How many constructs are unfinished while an expression is read.
fn load(stack: &[Unfinished], setting: &Setting) -> usize
    ensures { result ≡ min (load (setting_of setting.now) (frames stack.now)) (2 ^ 64 - 1) }
{
    base(setting).saturating_add(weights(stack))
}

/// How many constructs are unfinished, or the greatest `usize` where there are more.
pub fn height(progress: &Progress) -> usize
    ensures { result ≡ min (height (state_of progress.now)) (2 ^ 64 - 1) }
{
    match progress {
        Progress::Needed(stack, setting) => load(stack.as_slice(), setting),
        Progress::Operand(_, stack, setting) => load(stack.as_slice(), setting),
        Progress::Calling(_, stack, setting) => load(stack.as_slice(), setting),
        Progress::Between(bodies, _) => bodies.len(),
        Progress::Named(_, _, bodies, _) => bodies.len(),
        Progress::Looping(_, bodies, _) => bodies.len() + 1,
        Progress::LoopNamed(_, _, bodies, _) => bodies.len() + 1,
        Progress::Over(_) => 0,
    }
}
