ghost use Rattle.std.specs.Prelude.{◌≡◌, IfOk, OnOk, IsTrue, None};
ghost use Rattle.lw_pool.specs.Region.{IsLive, IsAt, Grows};
ghost use Rattle.lw_pool.specs.declared.id.SignedId.{SignedId};
ghost use Rattle.lw_proof.specs.Pooled.{proof_at};
ghost use Rattle.lw_interp.specs.Interpolant.{has_interpolants};
ghost use Rattle.lw_interp.specs.Maehara as maehara;
ghost use Rattle.lw_interp.specs.declared.frame.Frame.TheVariants as frame;
ghost use Rattle.lw_interp.specs.Private.SideLists.{sides_at, counts_of, AreSidesLive};
ghost use Rattle.lw_interp.specs.Private.ReadSteps.{IsReadable, IsCompanion};

use crate::frame::Frame;
use crate::sides::{Place, SideIds};
use crate::step::{companion, components, leaf, of_step, of_two};
use lw_formula::{Logic, Parts};
use lw_pool::{FormId, Pool, SignedId};
use lw_proof::Proof;
use std::alloc::{AllocError, Global};
use std::mem;

/// The interpolant that is read off a proof which closes the set of both sides.
pub(crate) fn read_off(
    alloc: Global,
    pool: &mut Pool,
    logic: Logic,
    sides: SideIds,
    proof: &Proof,
) -> Result<FormId, AllocError>
    requires logic { IsTrue (has_interpolants logic) }
    requires sides { AreSidesLive pool.old sides }
    requires proof { IsReadable pool.old proof.now }
    ensures at { IfOk result (IsAt pool.new (maehara.read_off logic (sides_at pool.old sides) (proof_at pool.old proof.now))) }
    ensures grows { Grows pool.old pool.new }
{
    let mut walk = Walk {
        sides,
        frames: Vec::new(alloc),
    };
    let mut id = walk.descend(pool, logic, proof)?;
    while let Some(frame) = walk.frames.pop() {
        id = walk.resume(pool, logic, frame, id)?;
    }
    Ok(id)
}

/// A walk over a proof, by which an interpolant is read off: the sides at the step where it is, and what is left to be
/// done at the steps above, the innermost last. Nothing recurses.
#[derive(Drop)]
struct Walk<'a> {
    sides: SideIds,
    frames: Vec<Frame<'a>>,
}

impl<'a> Walk<'a> {
    ghost use Rattle.lw_interp.specs.Private.ReadingWalk.{IsReady, IsWalkReady, GoesOn, GoesDown, GoesUp, IsPutUnder, IsStepUnder};

    /// Goes down by first subproofs to a step without premises, whose interpolant it gives.
    fn descend(
        &mut self,
        pool: &mut Pool,
        logic: Logic,
        proof: &'a Proof,
    ) -> Result<FormId, AllocError>
        requires logic { IsTrue (has_interpolants logic) }
        requires ready { IsWalkReady pool.old self.old }
        requires proof { IsReadable pool.old proof.now }
        ensures down { IfOk result (GoesDown logic pool.new self.old self.new proof.now) }
        ensures grows { Grows pool.old pool.new }
    {
        let mut at = proof;
        while let Some(sub) = self.enter(pool, logic, at)? {
            at = sub;
        }
        leaf(pool, &self.sides, at.rule(), at.principal())
    }

    /// Goes on to the first subproof, where there is one: puts the components of the first premise on the principal's
    /// side, and remembers what is left to be done.
    fn enter(
        &mut self,
        pool: &Pool,
        logic: Logic,
        proof: &'a Proof,
    ) -> Result<Option<&'a Proof>, AllocError>
        requires logic { IsTrue (has_interpolants logic) }
        requires ready { IsWalkReady pool.now self.old }
        requires proof { IsReadable pool.now proof.now }
        ensures { IfOk result (GoesOn logic pool.now self.old self.new proof.now) }
    {
        let item = proof.principal();
        let place = self.sides.place(pool, item);
        match components(pool, proof.rule(), item) {
            Parts::Nothing => Ok(None),
            Parts::One(first, second) => {
                self.extend(place, (first, second))?;
                Ok(Some(proof.sub(0)))
            }
            Parts::Two(one, other) => {
                self.split(place, one, other, proof.sub(1))?;
                Ok(Some(proof.sub(0)))
            }
            Parts::Nu(part) => {
                self.extend(place, (part, None))?;
                Ok(Some(proof.sub(0)))
            }
            Parts::Pi(part) => {
                self.step(pool, logic, place, (part, companion(logic, item)))?;
                Ok(Some(proof.sub(0)))
            }
        }
    }

    /// Puts the components of a One or a Refl on the side.
    fn extend(
        &mut self,
        place: Place,
        added: (SignedId, Option<SignedId>),
    ) -> Result<(), AllocError>
        ensures { OnOk result (IsPutUnder (frame.Only (counts_of self.old.sides)) place added self.old self.new) }
    {
        let before = self.sides.counts();
        self.sides.put(place, added)?;
        self.frames.push(Frame::Only { before })?;
        Ok(())
    }

    /// Puts the components of a Two's first premise on the side; the proof closes the other.
    fn split(
        &mut self,
        place: Place,
        one: (SignedId, Option<SignedId>),
        other: (SignedId, Option<SignedId>),
        proof: &'a Proof,
    ) -> Result<(), AllocError>
        ensures { OnOk result (IsPutUnder (frame.First (counts_of self.old.sides) place other proof.entry) place one self.old self.new) }
    {
        let before = self.sides.counts();
        self.sides.put(place, one)?;
        self.frames.push(Frame::First {
            before,
            place,
            other,
            proof,
        })?;
        Ok(())
    }

    /// Goes on with what a Step keeps of the sides, and puts what it adds on the side.
    fn step(
        &mut self,
        pool: &Pool,
        logic: Logic,
        place: Place,
        added: (SignedId, Option<SignedId>),
    ) -> Result<(), AllocError>
        requires { AreSidesLive pool.now self.old.sides }
        ensures { OnOk result (IsStepUnder logic pool.now (frame.Step self.old.sides place) place added self.old self.new) }
    {
        let mut sides = self.sides.kept(pool, logic)?;
        sides.put(place, added)?;
        let before = mem::replace(&mut self.sides, sides);
        self.frames.push(Frame::Step { before, place })?;
        Ok(())
    }

    /// The interpolant of the frame's step, from that of its premise; where the step has another premise, the
    /// interpolant of the next step without premises.
    fn resume(
        &mut self,
        pool: &mut Pool,
        logic: Logic,
        frame: Frame<'a>,
        id: FormId,
    ) -> Result<FormId, AllocError>
        requires logic { IsTrue (has_interpolants logic) }
        requires ready { IsWalkReady pool.old self.old }
        requires frame { IsReady pool.old frame }
        requires id { IsLive pool.old id }
        ensures up { IfOk result (GoesUp logic pool.new self.old self.new frame.entry id) }
        ensures grows { Grows pool.old pool.new }
    {
        match frame {
            Frame::Only { before } => {
                self.sides.cut(before);
                Ok(id)
            }
            Frame::First {
                before,
                place,
                other,
                proof,
            } => {
                self.sides.cut(before);
                self.turn(place, other, id)?;
                self.descend(pool, logic, proof)
            }
            Frame::Second {
                before,
                place,
                first,
            } => {
                self.sides.cut(before);
                of_two(pool, place.is_left(), first, id)
            }
            Frame::Step { before, place } => {
                self.sides = before;
                of_step(pool, place.is_left(), id)
            }
        }
    }

    /// Puts the components of a Two's other premise on the side, where the interpolant of the first is known.
    fn turn(
        &mut self,
        place: Place,
        other: (SignedId, Option<SignedId>),
        first: FormId,
    ) -> Result<(), AllocError>
        ensures { OnOk result (IsPutUnder (frame.Second (counts_of self.old.sides) place first) place other self.old self.new) }
    {
        let before = self.sides.counts();
        self.sides.put(place, other)?;
        self.frames.push(Frame::Second {
            before,
            place,
            first,
        })?;
        Ok(())
    }
}
