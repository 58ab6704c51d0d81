ghost use Rattle.std.specs.Prelude.{◌≡◌, length, IfOk, ⊤};
ghost use Rattle.lw_formula.specs.Formula.{neg};
ghost use Rattle.lw_pool.specs.Region.{tree_at, tree_of_node, AreChildrenBelow, IsLive, IsAt, Grows};
ghost use Rattle.lw_normal.specs.NegationNormalForm as normal;
ghost use Rattle.lw_normal.specs.Private.NormalIds.{AreNormalForms, AreNormalForms-grows, AreLive, either_pair};

use lw_pool::{FormId, Node, Pool, Step, fold};
use std::alloc::{AllocError, Global};

/// The id of the formula's negation normal form: it has `~` at variables alone, and neither `->` nor `<->`. It is true
/// at the same worlds of every model, and has at most 6 distinct subformulas for each of the formula. It fails for want
/// of memory alone. After either answer the pool has what it had, and perhaps formulas above.
pub fn nnf(alloc: Global, pool: &mut Pool, id: FormId) -> Result<FormId, AllocError>
    requires { IsLive pool.old id }
    ensures at { IfOk result (IsAt pool.new (normal.nnf (tree_at pool.old id))) }
    ensures grows { Grows pool.old pool.new }
{
    let forms = fold(alloc, pool, id, &IntoNormalForms)?;
    Ok(forms.own)
}

/// The ids of the normal forms of a formula and of its negation.
#[derive(Clone, Copy)]
struct NormalForms {
    own: FormId,
    negated: FormId,
}

/// The walk that finds both normal forms.
#[derive(Drop)]
struct IntoNormalForms;

impl Step<Pool> for IntoNormalForms {
    type Out = NormalForms;

    ghost is_right = { λ _. AreNormalForms };

    ghost suits = { λ _ _. ⊤ };

    ghost suits_on = { λ _ _ _ _ suits. suits };

    ghost lasts = { λ _ old new a forms grows _ at. AreNormalForms-grows old new a forms grows at };

    fn blank(&self) -> NormalForms {
        NormalForms {
            own: FormId(0),
            negated: FormId(0),
        }
    }

    fn step(
        &self,
        pool: &mut Pool,
        at: FormId,
        done: &[NormalForms],
    ) -> Result<NormalForms, AllocError> {
        match pool.node(at) {
            Node::Var(_) => own_and_negation(pool, at),
            Node::Bot => both(pool, Node::Bot, Node::Top),
            Node::Top => both(pool, Node::Top, Node::Bot),
            Node::Not(a) => {
                let a = done[a.0];
                Ok(NormalForms {
                    own: a.negated,
                    negated: a.own,
                })
            }
            Node::And(a, b) => {
                let (a, b) = (done[a.0], done[b.0]);
                both(
                    pool,
                    Node::And(a.own, b.own),
                    Node::Or(a.negated, b.negated),
                )
            }
            Node::Or(a, b) => {
                let (a, b) = (done[a.0], done[b.0]);
                both(
                    pool,
                    Node::Or(a.own, b.own),
                    Node::And(a.negated, b.negated),
                )
            }
            Node::Imp(a, b) => {
                let (a, b) = (done[a.0], done[b.0]);
                both(
                    pool,
                    Node::Or(a.negated, b.own),
                    Node::And(a.own, b.negated),
                )
            }
            Node::Iff(a, b) => {
                let (a, b) = (done[a.0], done[b.0]);
                equivalence(pool, a, b)
            }
            Node::Nec(a) => {
                let a = done[a.0];
                both(pool, Node::Nec(a.own), Node::Poss(a.negated))
            }
            Node::Poss(a) => {
                let a = done[a.0];
                both(pool, Node::Poss(a.own), Node::Nec(a.negated))
            }
        }
    }
}

/// The forms that the two nodes make of formulas of the pool.
fn both(pool: &mut Pool, own: Node, negated: Node) -> Result<NormalForms, AllocError>
    requires own { AreChildrenBelow (length pool.old) own }
    requires negated { AreChildrenBelow (length pool.old) negated }
    ensures own { IfOk result (λ forms. IsAt pool.new (tree_of_node pool.old own) forms.own) }
    ensures negated { IfOk result (λ forms. IsAt pool.new (tree_of_node pool.old negated) forms.negated) }
    ensures grows { Grows pool.old pool.new }
{
    let own = pool.make(own)?;
    let negated = pool.make(negated)?;
    Ok(NormalForms { own, negated })
}

/// The forms of a formula that is its own: the formula and its negation.
fn own_and_negation(pool: &mut Pool, id: FormId) -> Result<NormalForms, AllocError>
    requires { IsLive pool.old id }
    ensures own { IfOk result (λ forms. IsAt pool.new (tree_at pool.old id) forms.own) }
    ensures negated { IfOk result (λ forms. IsAt pool.new (neg (tree_at pool.old id)) forms.negated) }
    ensures grows { Grows pool.old pool.new }
{
    let negated = pool.make(Node::Not(id))?;
    Ok(NormalForms { own: id, negated })
}

/// The forms of `B <-> C`: both or neither, and one without the other.
fn equivalence(pool: &mut Pool, a: NormalForms, b: NormalForms) -> Result<NormalForms, AllocError>
    requires a { AreLive pool.old a }
    requires b { AreLive pool.old b }
    ensures own { IfOk result (λ forms. IsAt pool.new (either_pair pool.old (a.own, b.own) (a.negated, b.negated)) forms.own) }
    ensures negated { IfOk result (λ forms. IsAt pool.new (either_pair pool.old (a.own, b.negated) (a.negated, b.own)) forms.negated) }
    ensures grows { Grows pool.old pool.new }
{
    let same = both(
        pool,
        Node::And(a.own, b.own),
        Node::And(a.negated, b.negated),
    )?;
    let apart = both(
        pool,
        Node::And(a.own, b.negated),
        Node::And(a.negated, b.own),
    )?;
    both(
        pool,
        Node::Or(same.own, same.negated),
        Node::Or(apart.own, apart.negated),
    )
}
