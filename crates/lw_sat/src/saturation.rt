// Saturations as callers have them.
ghost use Rattle.std.specs.Prelude.{◌≡◌, ℕ, ◌+◌, ◌*◌, ◌<◌, ◌≤◌, false, IsTrue, All, IfOk, IsErr, OnErr, OnOk, length, max};
ghost use Rattle.lw_proof.specs.Derivation.{has_cut, is_modal_part};
ghost use Rattle.lw_proof.specs.Lean.{steps};
ghost use Rattle.lw_proof.specs.System.{Set};
ghost use Rattle.lw_closure.specs.Table.{entry_at, item_count};
ghost use Rattle.lw_sat.specs.Closing.{Closes};
ghost use Rattle.lw_sat.specs.Saturated.{every};
ghost use Rattle.lw_sat.specs.Course.{is_ready, is_unclosed, label, steps_held, waits, work_left, Finds, FoundSteps};
ghost use Rattle.lw_sat.specs.Course.{GoesOn, GoesOnSplit, BeginsFrom, IsFailed, IsUnderWay};
ghost use Rattle.lw_sat.specs.Sets.{among};
ghost use Rattle.lw_sat.specs.Private.FoldedStates.{state_from};

use crate::board::Board;
use crate::closing::unwind;
use crate::frame::Frame;
use crate::grow::branch;
use crate::round::run;
use lw_closure::Closure;
use lw_formula::Logic;
use lw_proof::{Proof, Rule};
use std::alloc::{AllocError, Global};
use std::mem;

/// What a saturation comes to next.
#[derive(Drop)]
pub enum Found {
    /// An unclosed label waits.
    Unclosed,
    /// The seed is closed by this proof.
    Closed(Proof),
}

/// How far a saturation has come.
#[derive(Drop)]
pub(crate) enum State {
    /// A label is under work.
    Working,
    /// An unclosed label waits.
    Waiting,
    /// The seed is closed.
    Closed(Proof),
    /// That was answered.
    Answered,
    /// Memory ran out.
    Failed,
}

/// The saturation of a seed: the unclosed labels that come of it one after another, until all are refused and the seed
/// is closed.
#[derive(Drop)]
pub struct Saturation {
    pub(crate) frames: Vec<Frame>,
    pub(crate) board: Board,
    pub(crate) state: State,
}

// The state after all frames were taken off, or after a label came under work.
fn state_after(found: Option<Proof>) -> State
    ensures { result ≡ state_from found }
{
    match found {
        None => State::Working,
        Some(proof) => State::Closed(proof),
    }
}

impl Saturation {
    /// A saturation of the seed, over a closure that was made for this logic. No label waits.
    pub fn start(
        alloc: Global,
        closure: &Closure,
        logic: Logic,
        seed: &[usize],
    ) -> Result<Saturation, AllocError>
        requires logic { closure.now.logic ≡ logic }
        requires items { All (λ item. item < item_count closure.now) seed.now }
        ensures under { IfOk result (BeginsFrom closure.now (among seed.now)) }
        ensures ready { IfOk result (λ saturation. IsTrue (is_ready saturation)) }
        ensures steps { IfOk result (λ saturation. steps_held saturation ≡ 0) }
    {
        let mut board = Board::new(alloc, 2 * closure.count())?;
        for item in seed {
            board.add_side((*item, None));
        }
        Ok(Saturation {
            frames: Vec::new(alloc),
            board,
            state: State::Working,
        })
    }

    /// Goes on until an unclosed label waits or the seed is closed; after `Closed` no label waits. Where memory runs
    /// out, no label waits, and each later call fails too. No label may wait, and `Closed` may not have been answered.
    pub fn next(&mut self, closure: &Closure) -> Result<Found, AllocError>
        requires under { (X : Set ℕ) × IsUnderWay closure.now X every self.old }
        requires ready { IsTrue (is_ready self.old) }
        ensures found { IfOk result (Finds closure.now self.old self.new) }
        ensures waits { IfOk result (λ found. waits self.new ≡ is_unclosed found) }
        ensures steps { IfOk result (FoundSteps (steps_held self.old) self.new) }
        ensures work { work_left self.new ≤ work_left self.old }
        ensures failed { OnErr result (IsFailed self.new) }
        ensures still { IsFailed self.old → IsErr result }
    {
        let alloc = *self.frames.allocator();
        match mem::replace(&mut self.state, State::Failed) {
            State::Working => match run(alloc, closure, &mut self.frames, &mut self.board)? {
                None => {
                    self.state = State::Waiting;
                    Ok(Found::Unclosed)
                }
                Some(proof) => {
                    self.state = State::Answered;
                    Ok(Found::Closed(proof))
                }
            },
            State::Closed(proof) => {
                self.state = State::Answered;
                Ok(Found::Closed(proof))
            }
            _ => Err(AllocError),
        }
    }

    /// Whether the label that waits has the item. It has no number beyond the items of the closure.
    pub fn has(&self, item: usize) -> bool
        requires { IsTrue (waits self.now) }
        ensures { result ≡ label self.now item }
    {
        self.board.has(item)
    }

    /// Gives up the label that waits, which the proof closes. No label waits then. Where memory runs out, each later
    /// `next` fails.
    pub fn refuse(&mut self, closure: &Closure, proof: Proof) -> Result<(), AllocError>
        requires under { (X : Set ℕ) × IsUnderWay closure.now X every self.old }
        requires waits { IsTrue (waits self.old) }
        requires closes { Closes closure.now (label self.old) proof }
        ensures under { GoesOn closure.now self.old self.new }
        ensures ready { IsTrue (is_ready self.new) }
        ensures steps { OnOk result (steps_held self.new ≤ max (steps_held self.old) (steps proof)) }
        ensures work { work_left self.new < work_left self.old }
        ensures failed { OnErr result (IsFailed self.new) }
    {
        let alloc = *self.frames.allocator();
        self.state = State::Failed;
        let found = unwind(alloc, closure, &mut self.frames, &mut self.board, proof)?;
        self.state = state_after(found);
        Ok(())
    }

    /// Splits the label that waits on a modal formula of which it has neither item: it makes a cut. No label waits
    /// then. Where memory runs out, each later `next` fails.
    pub fn split(&mut self, closure: &Closure, formula: usize) -> Result<(), AllocError>
        requires under { (X : Set ℕ) × IsUnderWay closure.now X every self.old }
        requires logic { IsTrue (has_cut closure.now.logic) }
        requires waits { IsTrue (waits self.old) }
        requires there { formula < length closure.now.forms }
        requires modal { IsTrue (is_modal_part (entry_at closure.now (2 * formula)).parts) }
        requires positive { label self.old (2 * formula) ≡ false }
        requires negative { label self.old (2 * formula + 1) ≡ false }
        ensures under { GoesOnSplit closure.now (2 * formula) (2 * formula + 1) self.old self.new }
        ensures ready { IsTrue (is_ready self.new) }
        ensures steps { OnOk result (steps_held self.new ≤ steps_held self.old) }
        ensures work { work_left self.new < work_left self.old }
        ensures failed { OnErr result (IsFailed self.new) }
    {
        let item = 2 * formula;
        self.state = State::Failed;
        let frame = branch(
            &mut self.board,
            Rule::Cut,
            item,
            (item, None),
            (item + 1, None),
        )?;
        self.frames.push(frame)?;
        self.state = State::Working;
        Ok(())
    }
}
