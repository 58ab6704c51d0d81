// Rules that put something into the label.
ghost use Rattle.std.specs.Prelude.{◌≡◌, IfOk, OnOk};
ghost use Rattle.lw_sat.specs.Moves.{listed};
ghost use Rattle.lw_sat.specs.SeedPath.{spot_of, Becomes};
ghost use Rattle.lw_sat.specs.Sets.{adding, top, AreBelow};
ghost use Rattle.lw_sat.specs.Private.GrownBoards.{Branches};
ghost use Rattle.lw_sat.specs.declared.frame.Frame.TheVariants.{Alone, First};

use crate::board::Board;
use crate::frame::{Frame, Side};
use lw_proof::Rule;
use std::alloc::AllocError;

/// Puts the components of a rule with one premise into the label, and gives the rule's frame.
pub fn grow(board: &mut Board, rule: Rule, item: usize, side: Side) -> Frame
    requires { AreBelow board.old.bits (listed side) }
    ensures frame { result ≡ Alone rule item side }
    ensures grown { Becomes board.old board.new (record (spot_of board.old) { set = adding (listed side) (top board.old.labels) }) }
{
    board.add_side(side);
    Frame::Alone { rule, item, side }
}

/// Makes the label a branch point, and puts the first side of a rule with two premises into its copy. Gives the rule's
/// frame.
pub fn branch(
    board: &mut Board,
    rule: Rule,
    item: usize,
    first: Side,
    second: Side,
) -> Result<Frame, AllocError>
    requires { AreBelow board.old.bits (listed first) }
    ensures frame { IfOk result (λ frame. frame ≡ First rule item first second) }
    ensures grown { OnOk result (Branches board.old board.new (listed first)) }
{
    board.fork()?;
    board.add_side(first);
    Ok(Frame::First {
        rule,
        item,
        first,
        second,
    })
}
