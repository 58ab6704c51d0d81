// What a closed premise makes of the rule below it.
ghost use Rattle.std.specs.Prelude.{◌≡◌, ℕ, ◌<◌, ◌≤◌, List, [], ◌∷◌, ◌++◌, length, max, IfOk, OnOk};
ghost use Rattle.lw_pool.specs.declared.id.SignedId.{SignedId};
ghost use Rattle.lw_proof.specs.Lean.{own_steps, steps};
ghost use Rattle.lw_proof.specs.System.{Set};
ghost use Rattle.lw_proof.specs.Tree.{node, more, none};
ghost use Rattle.lw_closure.specs.Table.{item_at, item_count};
ghost use Rattle.lw_sat.specs.Moves.{listed};
ghost use Rattle.lw_sat.specs.SeedPath.{folded_steps, held_steps, spot_of, Becomes, ClosesAbove, FoldsFrame, IsWide, TakesKept};
ghost use Rattle.lw_sat.specs.Sets.{lower, sets, top, AreBelow};
ghost use Rattle.lw_sat.specs.Private.ClosedPremises.{FoldsFirst, RestsAlone, RestsBoth};

use crate::board::Board;
use crate::frame::{Folded, Frame, Side};
use lw_closure::Closure;
use lw_proof::{Proof, Rule};
use std::alloc::{AllocError, Global};

/// The proof that begins with the rule on the item and goes on with one proof. It fails for want of memory alone.
pub fn over_one(
    alloc: Global,
    closure: &Closure,
    rule: Rule,
    item: usize,
    proof: Proof,
) -> Result<Proof, AllocError>
    requires { item < item_count closure.now }
    ensures { IfOk result (λ p. p ≡ node rule (item_at closure.now item) (more proof none)) }
{
    let mut subs = Vec::new(alloc);
    subs.push(proof)?;
    Ok(Proof::new(rule, closure.signed(item), subs))
}

/// The proof that begins with the rule on the item and goes on with two proofs.
fn over_two(
    alloc: Global,
    closure: &Closure,
    rule: Rule,
    item: usize,
    first: Proof,
    second: Proof,
) -> Result<Proof, AllocError>
    requires { item < item_count closure.now }
    ensures { IfOk result (λ p. p ≡ node rule (item_at closure.now item) (more first (more second none))) }
{
    let mut subs = Vec::new(alloc);
    subs.push(first)?;
    subs.push(second)?;
    Ok(Proof::new(rule, closure.signed(item), subs))
}

// A rule with one premise, which the proof closes: it is left out where the proof uses nothing of what it adds.
fn fold_alone(
    alloc: Global,
    closure: &Closure,
    board: &mut Board,
    rule: Rule,
    item: usize,
    side: Side,
    proof: Proof,
) -> Result<Proof, AllocError>
    requires still { own_steps rule ≡ 0 }
    requires item { item < item_count closure.now }
    requires item_inside { item < board.old.bits }
    requires inside { AreBelow board.old.bits (listed side) }
    ensures stays { Becomes board.old board.new (record (spot_of board.old) { set = top board.new.labels }) }
    ensures rests { IfOk result (RestsAlone closure.now board.old board.new rule item side proof) }
    ensures steps { IfOk result (λ p. steps p ≤ steps proof) }
{
    if !board.has_any(side) {
        return Ok(proof);
    }
    board.use_alone(rule, item, side);
    let whole = over_one(alloc, closure, rule, item, proof)?;
    Ok(whole)
}

// A rule whose second premise the proof closes, after the first: only this premise's proof is kept where it uses
// nothing of what the rule adds.
fn fold_second(
    alloc: Global,
    closure: &Closure,
    board: &mut Board,
    rule: Rule,
    item: usize,
    first: Side,
    second: Side,
    first_proof: Proof,
    proof: Proof,
) -> Result<Proof, AllocError>
    requires still { own_steps rule ≡ 0 }
    requires kept { 1 ≤ length (sets board.old.used) }
    requires item { item < item_count closure.now }
    requires item_inside { item < board.old.bits }
    requires first_inside { AreBelow board.old.bits (listed first) }
    requires second_inside { AreBelow board.old.bits (listed second) }
    ensures stays { TakesKept board.old board.new (λ U. top board.new.labels) }
    ensures rests { IfOk result (RestsBoth closure.now board.old board.new rule item first second first_proof proof) }
    ensures steps { IfOk result (λ p. steps p ≤ max (steps first_proof) (steps proof)) }
{
    if !board.has_any(second) {
        board.forget();
        return Ok(proof);
    }
    board.use_branches(rule, item, first, second);
    let whole = over_two(alloc, closure, rule, item, first_proof, proof)?;
    Ok(whole)
}

// A rule whose first premise the proof closes: the second is under work, but where the proof uses nothing of what the
// rule adds.
fn fold_first(
    board: &mut Board,
    rule: Rule,
    item: usize,
    first: Side,
    second: Side,
    proof: Proof,
) -> Result<Folded, AllocError>
    requires below { (Bs : List (Set ℕ)) × (X : Set ℕ) × (lower board.old.labels ≡ Bs ++ X ∷ []) }
    requires first_inside { AreBelow board.old.bits (listed first) }
    requires second_inside { AreBelow board.old.bits (listed second) }
    ensures { IfOk result (FoldsFirst board.old board.new rule item first second proof) }
{
    let needed = board.has_any(first);
    board.keep()?;
    board.go_back();
    if !needed {
        board.restore();
        return Ok(Folded::Closed(proof));
    }
    board.add_side(second);
    Ok(Folded::Turned(Frame::Second {
        rule,
        item,
        first,
        second,
        proof,
    }))
}

/// What comes of the rule of a frame when the premise that was under work is closed: the board has the items that its
/// proof uses. A rule is left out where the proof uses nothing of what it adds. After an error nothing is known of the
/// board.
pub fn fold_frame(
    alloc: Global,
    closure: &Closure,
    board: &mut Board,
    frame: Frame,
    proof: Proof,
) -> Result<Folded, AllocError>
    requires wide { IsWide closure.now board.old }
    requires above { ClosesAbove closure.now frame board.old proof }
    ensures bits { OnOk result (board.new.bits ≡ board.old.bits) }
    ensures folded { IfOk result (FoldsFrame closure.now frame board.old board.new proof) }
    ensures steps { IfOk result (λ folded. folded_steps folded ≤ max (held_steps frame) (steps proof)) }
{
    match frame {
        Frame::Alone { rule, item, side } => {
            let whole = fold_alone(alloc, closure, board, rule, item, side, proof)?;
            Ok(Folded::Closed(whole))
        }
        Frame::First {
            rule,
            item,
            first,
            second,
        } => {
            let folded = fold_first(board, rule, item, first, second, proof)?;
            Ok(folded)
        }
        Frame::Second {
            rule,
            item,
            first,
            second,
            proof: first_proof,
        } => {
            let whole = fold_second(
                alloc,
                closure,
                board,
                rule,
                item,
                first,
                second,
                first_proof,
                proof,
            )?;
            Ok(Folded::Closed(whole))
        }
    }
}
