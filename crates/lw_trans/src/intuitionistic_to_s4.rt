ghost use Rattle.std.specs.Prelude.{◌≡◌, IfOk, IfErr, IsErrOf, OnOk, ⊤};
ghost use Rattle.lw_formula.specs.Formula.{impl, neg, nec};
ghost use Rattle.lw_pool.specs.Region.{tree_at, IsLive, IsAt, Grows};
ghost use Rattle.lw_pool.proofs.RegionGrowth.{IsAt-grows};
ghost use Rattle.lw_trans.specs.declared.connective.Connective.{Connective};
ghost use Rattle.lw_trans.specs.declared.fault.TransFault.TheVariants.{NotIntuitionistic};
ghost use Rattle.lw_trans.specs.Translations as translations;
ghost use Rattle.lw_trans.specs.Connectives.{IsIntuitionistic, IsFaultOf};
ghost use Rattle.lw_trans.specs.Private.FirstConnective.{first_of};

use crate::connective::{Connective, earlier};
use crate::fault::TransFault;
use lw_pool::{FormId, Node, Pool, Step, fold};
use std::alloc::{AllocError, Global};

/// The id of Gödel's translation of an intuitionistic formula, with `box` before each letter, each `->` and each `~`.
/// It is valid in S4 exactly where the formula is intuitionistically valid. `NotIntuitionistic` comes exactly where the
/// formula has `box`, `dia`, `<->` or `true`, and names the first of them in this order; `Memory` comes for want of
/// memory alone. After any answer the pool has what it had, and perhaps formulas above: none after `NotIntuitionistic`.
pub fn goedel(alloc: Global, pool: &mut Pool, id: FormId) -> Result<FormId, TransFault>
    requires { IsLive pool.old id }
    ensures at { IfOk result (IsAt pool.new (translations.goedel (tree_at pool.old id))) }
    ensures intuitionistic { OnOk result (IsIntuitionistic (tree_at pool.old id)) }
    ensures refused { IfErr result (IsFaultOf (tree_at pool.old id)) }
    ensures unchanged { (what : Connective) → IsErrOf result (NotIntuitionistic what) → pool.new ≡ pool.old }
    ensures grows { Grows pool.old pool.new }
{
    if let Some(what) = first_connective(alloc, pool, id)? {
        return Err(TransFault::NotIntuitionistic { what });
    }
    Ok(fold(alloc, pool, id, &IntoS4)?)
}

/// The first of the connectives in the formula that no intuitionistic formula has, if it has one.
fn first_connective(
    alloc: Global,
    pool: &Pool,
    id: FormId,
) -> Result<Option<Connective>, AllocError>
    requires { IsLive pool.now id }
    ensures { IfOk result (λ what. what ≡ first_of (tree_at pool.now id)) }
{
    let mut pool = pool;
    fold(alloc, &mut pool, id, &FirstConnective)
}

/// The walk that finds the first of the connectives that no intuitionistic formula has.
#[derive(Drop)]
struct FirstConnective;

impl<'a> Step<&'a Pool> for FirstConnective {
    type Out = Option<Connective>;

    ghost is_right = { λ _ _ a what. what ≡ first_of a };

    ghost suits = { λ _ _. ⊤ };

    ghost suits_on = { λ _ _ _ _ suits. suits };

    ghost lasts = { λ _ _ _ _ _ _ _ right. right };

    fn blank(&self) -> Option<Connective> {
        None
    }

    fn step(
        &self,
        pool: &mut &'a Pool,
        at: FormId,
        done: &[Option<Connective>],
    ) -> Result<Option<Connective>, AllocError> {
        Ok(match pool.node(at) {
            Node::Var(_) | Node::Bot => None,
            Node::Top => Some(Connective::Top),
            Node::Not(a) => done[a.0],
            Node::And(a, b) | Node::Or(a, b) | Node::Imp(a, b) => earlier(done[a.0], done[b.0]),
            Node::Iff(a, b) => { earlier(Some(Connective::Iff), earlier(done[a.0], done[b.0])) }
            Node::Nec(a) => earlier(Some(Connective::Nec), done[a.0]),
            Node::Poss(a) => earlier(Some(Connective::Poss), done[a.0]),
        })
    }
}

/// The walk that translates from intuitionistic logic into S4.
#[derive(Drop)]
struct IntoS4;

impl Step<Pool> for IntoS4 {
    type Out = FormId;

    ghost is_right = { λ _ ts a. IsAt ts (translations.goedel a) };

    ghost suits = { λ _ _. ⊤ };

    ghost suits_on = { λ _ _ _ _ suits. suits };

    ghost lasts = { λ _ old new a id grows _ at. IsAt-grows old new (translations.goedel a) id grows at };

    fn blank(&self) -> FormId {
        FormId(0)
    }

    fn step(&self, pool: &mut Pool, at: FormId, done: &[FormId]) -> Result<FormId, AllocError> {
        match pool.node(at) {
            Node::Var(_) => pool.make(Node::Nec(at)),
            Node::Bot | Node::Top => Ok(at),
            Node::Not(a) => {
                let a = done[a.0];
                boxed_negation(pool, a)
            }
            Node::And(a, b) => {
                let (a, b) = (done[a.0], done[b.0]);
                pool.make(Node::And(a, b))
            }
            Node::Or(a, b) => {
                let (a, b) = (done[a.0], done[b.0]);
                pool.make(Node::Or(a, b))
            }
            Node::Imp(a, b) => {
                let (a, b) = (done[a.0], done[b.0]);
                boxed_implication(pool, a, b)
            }
            Node::Iff(a, b) => {
                let (a, b) = (done[a.0], done[b.0]);
                pool.make(Node::Iff(a, b))
            }
            Node::Nec(a) => {
                let a = done[a.0];
                pool.make(Node::Nec(a))
            }
            Node::Poss(a) => {
                let a = done[a.0];
                pool.make(Node::Poss(a))
            }
        }
    }
}

/// `box ~B`
fn boxed_negation(pool: &mut Pool, id: FormId) -> Result<FormId, AllocError>
    requires { IsLive pool.old id }
    ensures at { IfOk result (IsAt pool.new (nec (neg (tree_at pool.old id)))) }
    ensures grows { Grows pool.old pool.new }
{
    let negated = pool.make(Node::Not(id))?;
    pool.make(Node::Nec(negated))
}

/// `box(B -> C)`
fn boxed_implication(pool: &mut Pool, left: FormId, right: FormId) -> Result<FormId, AllocError>
    requires left { IsLive pool.old left }
    requires right { IsLive pool.old right }
    ensures at { IfOk result (IsAt pool.new (nec (impl (tree_at pool.old left) (tree_at pool.old right)))) }
    ensures grows { Grows pool.old pool.new }
{
    let implication = pool.make(Node::Imp(left, right))?;
    pool.make(Node::Nec(implication))
}
