ghost use Rattle.std.specs.Prelude.{◌≡◌, IfOk};
ghost use Rattle.lw_read.specs.Constructs.{Constructs, ended, frames_of, top_rank};

use std::alloc::{AllocError, Global};

/// A construct of an expression that waits for its last operand, or for the token that ends it.
pub trait Construct: Drop {
    /// What expressions are read as.
    type Tree;

    // constructs and trees as the grammar sees them
    ghost Frame: { Type 0 };

    ghost Parsed: { Type 0 };

    ghost constructs: { Constructs Frame Parsed };

    ghost frame: { Self → Frame };

    ghost parsed: { Self.Tree → Parsed };

    /// The level of the expression that the construct ends as, or 0 where a token of its own alone ends it.
    fn level(&self) -> u8
        ensures { result ≡ constructs.rank (frame self.now) };

    /// The construct with its last operand.
    fn finish(self, alloc: Global, operand: Self::Tree) -> Result<Self::Tree, AllocError>
        ensures { IfOk result (λ tree. parsed tree ≡ constructs.finish (frame self) (parsed operand)) };
}

// The level of the innermost construct, or 0.
fn top_level<C: Construct>(stack: &[C]) -> u8
    ensures { result ≡ top_rank C.constructs (frames_of C.frame stack.now) }
{
    match stack.last() {
        Some(construct) => construct.level(),
        None => 0,
    }
}

/// Ends the constructs of the stack, the innermost last, that bind tighter than the level, and gives the operand that
/// comes of it. It fails for want of memory alone.
pub fn end_tighter<C: Construct>(
    alloc: Global,
    level: u8,
    mut operand: C::Tree,
    stack: &mut Vec<C>,
) -> Result<C::Tree, AllocError>
    ensures operand { IfOk result (λ tree.
        C.parsed tree ≡ (ended C.constructs level (C.parsed operand) (frames_of C.frame stack.old.items)).0) }
    ensures stack { IfOk result (λ _.
        frames_of C.frame stack.new.items
        ≡ (ended C.constructs level (C.parsed operand) (frames_of C.frame stack.old.items)).1) }
{
    'tighter: while top_level(stack.as_slice()) > level {
        if let Some(construct) = stack.pop() {
            operand = construct.finish(alloc, operand)?;
        }
    }
    Ok(operand)
}
