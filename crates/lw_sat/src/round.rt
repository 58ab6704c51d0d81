// The rounds of a saturation.
ghost use Rattle.std.specs.Prelude.{◌≡◌, ℕ, ◌<◌, ◌≤◌, IfNone, IfOk, OnOk, [], ◌∷◌};
ghost use Rattle.lw_proof.specs.System.{Set};
ghost use Rattle.lw_proof.specs.Tree.{node, none};
ghost use Rattle.lw_closure.specs.Table.{item_at, item_count};
ghost use Rattle.lw_sat.specs.Moves.{listed};
ghost use Rattle.lw_sat.specs.SeedPath.{most_steps, spot_of, Becomes};
ghost use Rattle.lw_sat.specs.Course.{Runs};
ghost use Rattle.lw_sat.specs.Saturated.{every, fold_steps, room, IsAt};
ghost use Rattle.lw_sat.specs.Sets.{adding, nothing, AreBelow};
ghost use Rattle.lw_sat.specs.Private.RoundEnds.{round_steps, Advances, RoundFalls};

use crate::board::Board;
use crate::closing::unwind;
use crate::frame::{Frame, Side};
use crate::grow::{branch, grow};
use crate::work::{Work, find};
use lw_closure::Closure;
use lw_proof::{Proof, Rule};
use std::alloc::{AllocError, Global};

/// What one round comes to.
#[derive(Drop)]
pub enum Round {
    /// There is a label under work.
    Moved,
    /// The label is unclosed.
    Quiet,
    /// The seed is closed.
    Done(Proof),
}

// The proof that closes the label without premises. The items that it uses stand for the label.
fn close(
    alloc: Global,
    closure: &Closure,
    board: &mut Board,
    rule: Rule,
    item: usize,
    used: Side,
) -> Proof
    requires item { item < item_count closure.now }
    requires inside { AreBelow board.old.bits (listed used) }
    ensures proof { result ≡ node rule (item_at closure.now item) none }
    ensures uses { Becomes board.old board.new (record (spot_of board.old) { set = adding (listed used) nothing }) }
{
    board.use_leaf(used);
    Proof::new(rule, closure.signed(item), Vec::new(alloc))
}

/// Does what the label asks for first. After an error nothing is known of frames and board.
pub fn advance(
    alloc: Global,
    closure: &Closure,
    frames: &mut Vec<Frame>,
    board: &mut Board,
) -> Result<Round, AllocError>
    requires { (X : Set ℕ) × IsAt closure.now X every frames.old.items board.old }
    ensures fits { IfOk result (Advances closure.now frames.old.items board.old frames.new.items board.new) }
    ensures bits { OnOk result (board.new.bits ≡ board.old.bits) }
    ensures falls { IfOk result (RoundFalls (room board.old) (room board.new)) }
    ensures steps { IfOk result (λ round. round_steps frames.new.items round ≤ most_steps frames.old.items) }
{
    match find(closure, board) {
        Work::Leaf { rule, item, used } => {
            let proof = close(alloc, closure, board, rule, item, used);
            match unwind(alloc, closure, frames, board, proof)? {
                Some(whole) => Ok(Round::Done(whole)),
                None => Ok(Round::Moved),
            }
        }
        Work::Only { rule, item, side } => {
            let frame = grow(board, rule, item, side);
            frames.push(frame)?;
            Ok(Round::Moved)
        }
        Work::Both {
            item,
            first,
            second,
        } => {
            let frame = branch(board, Rule::Two, item, first, second)?;
            frames.push(frame)?;
            Ok(Round::Moved)
        }
        Work::Nothing => Ok(Round::Quiet),
    }
}

/// Goes on until a label is unclosed, or gives the proof that closes the seed. After an error nothing is known of frames
/// and board.
pub fn run(
    alloc: Global,
    closure: &Closure,
    frames: &mut Vec<Frame>,
    board: &mut Board,
) -> Result<Option<Proof>, AllocError>
    requires { (X : Set ℕ) × IsAt closure.now X every frames.old.items board.old }
    ensures found { IfOk result (Runs closure.now frames.old.items board.old frames.new.items board.new) }
    ensures bits { OnOk result (board.new.bits ≡ board.old.bits) }
    ensures falls { IfOk result (λ found. IfNone found (room board.new ≤ room board.old)) }
    ensures steps { IfOk result (λ found. fold_steps frames.new.items found ≤ most_steps frames.old.items) }
{
    loop {
        match advance(alloc, closure, frames, board)? {
            Round::Moved => {}
            Round::Quiet => return Ok(None),
            Round::Done(proof) => return Ok(Some(proof)),
        }
    }
}
