// From a closed label down to the last branch point whose other side is open.
ghost use Rattle.std.specs.Prelude.{◌≡◌, ℕ, ◌<◌, ◌≤◌, max, IfNone, IfOk, OnOk};
ghost use Rattle.lw_proof.specs.Lean.{steps};
ghost use Rattle.lw_proof.specs.System.{Set};
ghost use Rattle.lw_sat.specs.SeedPath.{most_steps, room_below, spot_of};
ghost use Rattle.lw_sat.specs.Saturated.{every, fold_steps, room, IsClosing, Unwinds};

use crate::board::Board;
use crate::fold::fold_frame;
use crate::frame::{Folded, Frame};
use lw_closure::Closure;
use lw_proof::Proof;
use std::alloc::{AllocError, Global};

/// Takes off the frames whose premises the proof closes. Gives None where a label is under work again, and a proof that
/// closes the seed where no branch point is left. After an error nothing is known of frames and board.
pub fn unwind(
    alloc: Global,
    closure: &Closure,
    frames: &mut Vec<Frame>,
    board: &mut Board,
    proof: Proof,
) -> Result<Option<Proof>, AllocError>
    requires { (X : Set ℕ) × IsClosing closure.now X every frames.old.items board.old proof }
    ensures folded { IfOk result (Unwinds closure.now frames.old.items board.old proof frames.new.items board.new) }
    ensures bits { OnOk result (board.new.bits ≡ board.old.bits) }
    ensures falls { IfOk result (λ found. IfNone found (room board.new < room_below board.old.bits (spot_of board.old))) }
    ensures steps { IfOk result (λ found. fold_steps frames.new.items found ≤ max (most_steps frames.old.items) (steps proof)) }
{
    let mut proof = proof;
    while let Some(frame) = frames.pop() {
        match fold_frame(alloc, closure, board, frame, proof)? {
            Folded::Closed(whole) => proof = whole,
            Folded::Turned(turned) => {
                frames.push(turned)?;
                return Ok(None);
            }
        }
    }
    Ok(Some(proof))
}
