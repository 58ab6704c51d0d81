ghost use Rattle.std.specs.Prelude.{◌≡◌, ◌+◌, length, min, IfOk, ⊤};
ghost use Rattle.std.below.core.specs.declared.int.usize.TheConstants.{MAX};
ghost use Rattle.lw_formula.specs.Formula.{Formula};
ghost use Rattle.lw_pool.specs.Region.{tree_at, IsLive};
ghost use Rattle.lw_formula.specs.Joint.{join};
ghost use Rattle.lw_read.specs.Grammar.{rank};
ghost use Rattle.lw_read.specs.Text.{text_of, operand_text, modal_operand_text};
ghost use Rattle.lw_read.specs.Private.TextMeasures.{IsMeasure};

use crate::lexeme::{rank, sign_text};
use lw_formula::Joint;
use lw_pool::{FormId, Node, Pool, Step, fold};
use std::alloc::{AllocError, Global};

/// The length of a formula's text, or the greatest `usize` where it is longer, and how tightly it binds.
#[derive(Clone, Copy)]
pub struct Measure {
    pub length: usize,
    pub tightness: u8,
}

/// The length of the text of the formula at the id, or the greatest `usize` where it is longer. Each formula below it
/// is measured once, however often it is shared. It fails for want of memory alone.
pub fn text_length(alloc: Global, pool: &Pool, id: FormId) -> Result<usize, AllocError>
    requires { IsLive pool.now id }
    ensures { IfOk result (λ len. len ≡ min (length (text_of (tree_at pool.now id))) usize.MAX) }
{
    let mut pool = pool;
    let measure = fold(alloc, &mut pool, id, &TextMeasure)?;
    Ok(measure.length)
}

/// The walk that measures texts.
#[derive(Drop)]
struct TextMeasure;

impl<'a> Step<&'a Pool> for TextMeasure {
    type Out = Measure;

    ghost is_right = { λ _ _ a measure. IsMeasure MAX a measure };

    ghost suits = { λ _ _. ⊤ };

    ghost suits_on = { λ _ _ _ _ suits. suits };

    ghost lasts = { λ _ _ _ _ _ _ _ right. right };

    fn blank(&self) -> Measure {
        leaf(0)
    }

    fn step(
        &self,
        pool: &mut &'a Pool,
        at: FormId,
        done: &[Measure],
    ) -> Result<Measure, AllocError> {
        Ok(match pool.node(at) {
            Node::Var(name) => leaf(name.as_bytes().len()),
            Node::Bot => leaf(5),
            Node::Top => leaf(4),
            Node::Not(a) => prefixed(1, operand_length(done[a.0], 5)),
            Node::Nec(a) | Node::Poss(a) => prefixed(3, modal_operand_length(done[a.0])),
            Node::And(a, b) => joined(Joint::And, done[a.0], done[b.0]),
            Node::Or(a, b) => joined(Joint::Or, done[a.0], done[b.0]),
            Node::Imp(a, b) => joined(Joint::Imp, done[a.0], done[b.0]),
            Node::Iff(a, b) => joined(Joint::Iff, done[a.0], done[b.0]),
        })
    }
}

fn leaf(length: usize) -> Measure
    ensures { result ≡ record { length = length; tightness = 5 } }
{
    Measure {
        length,
        tightness: 5,
    }
}

// A sign of so many bytes before an operand.
fn prefixed(sign: usize, operand: usize) -> Measure
    ensures { result ≡ record { length = min (sign + operand) usize.MAX; tightness = 5 } }
{
    Measure {
        length: sign.saturating_add(operand),
        tightness: 5,
    }
}

// A connective between operands.
fn joined(sign: Joint, left: Measure, right: Measure) -> Measure
    ensures length { (a b : Formula) → IsMeasure usize.MAX a left → IsMeasure usize.MAX b right
        → result.length ≡ min (length (text_of (join sign a b))) usize.MAX }
    ensures tightness { result.tightness ≡ rank sign }
{
    Measure {
        length: operand_length(left, rank(sign) + 1)
            .saturating_add(sign_text(sign).len())
            .saturating_add(operand_length(right, rank(sign))),
        tightness: rank(sign),
    }
}

// The length of an operand's text where a formula must bind so tightly.
fn operand_length(operand: Measure, least: u8) -> usize
    ensures { (a : Formula) → IsMeasure usize.MAX a operand
        → result ≡ min (length (operand_text least a (text_of a))) usize.MAX }
{
    if operand.tightness < least {
        operand.length.saturating_add(2)
    } else {
        operand.length
    }
}

// The length of the text of the operand of `box` or `dia`.
fn modal_operand_length(operand: Measure) -> usize
    ensures { (a : Formula) → IsMeasure usize.MAX a operand
        → result ≡ min (length (modal_operand_text a (text_of a))) usize.MAX }
{
    if operand.tightness < 5 {
        operand.length.saturating_add(2)
    } else {
        operand.length.saturating_add(1)
    }
}
