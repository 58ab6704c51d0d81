ghost use Rattle.std.specs.Prelude.{◌≡◌, length};
ghost use Rattle.lw_formula.specs.Components as components;
ghost use Rattle.lw_formula.specs.Components.{parts_of};
ghost use Rattle.lw_pool.specs.Region.{IsLive, signed_at, parts_at, ArePartsBelow};

use crate::id::{FormId, SignedId};
use crate::node::Node;
use crate::pool::Pool;
use lw_formula::{Parts, Sign};

impl Pool {
    /// The components of the signed formula, by their ids.
    pub fn parts(&self, item: SignedId) -> Parts<SignedId>
        requires { IsLive self.now item.form }
        ensures parts { parts_at self.now result ≡ parts_of (signed_at self.now item) }
        ensures below { ArePartsBelow item.form.0 result }
        ensures live { ArePartsBelow (length self.now) result }
    {
        match (item.sign, self.node(item.form)) {
            (Sign::T, Node::And(a, b)) => Parts::One(holds(*a), Some(holds(*b))),
            (Sign::F, Node::Or(a, b)) => Parts::One(fails(*a), Some(fails(*b))),
            (Sign::F, Node::Imp(a, b)) => Parts::One(holds(*a), Some(fails(*b))),
            (Sign::T, Node::Not(a)) => Parts::One(fails(*a), None),
            (Sign::F, Node::Not(a)) => Parts::One(holds(*a), None),
            (Sign::F, Node::And(a, b)) => Parts::Two((fails(*a), None), (fails(*b), None)),
            (Sign::T, Node::Or(a, b)) => Parts::Two((holds(*a), None), (holds(*b), None)),
            (Sign::T, Node::Imp(a, b)) => Parts::Two((fails(*a), None), (holds(*b), None)),
            (Sign::T, Node::Iff(a, b)) => Parts::Two(
                (holds(*a), Some(holds(*b))),
                (fails(*a), Some(fails(*b))),
            ),
            (Sign::F, Node::Iff(a, b)) => Parts::Two(
                (holds(*a), Some(fails(*b))),
                (fails(*a), Some(holds(*b))),
            ),
            (Sign::T, Node::Nec(a)) => Parts::Nu(holds(*a)),
            (Sign::F, Node::Poss(a)) => Parts::Nu(fails(*a)),
            (Sign::F, Node::Nec(a)) => Parts::Pi(fails(*a)),
            (Sign::T, Node::Poss(a)) => Parts::Pi(holds(*a)),
            (_, Node::Var(_) | Node::Bot | Node::Top) => Parts::Nothing,
        }
    }

    /// Whether it is `T false` or `F true`, which hold nowhere.
    pub fn is_absurd(&self, item: SignedId) -> bool
        requires { IsLive self.now item.form }
        ensures { result ≡ components.is_absurd (signed_at self.now item) }
    {
        matches!(
            (item.sign, self.node(item.form)),
            (Sign::T, Node::Bot) | (Sign::F, Node::Top)
        )
    }
}

/// The formula under the sign `T`.
fn holds(form: FormId) -> SignedId
    ensures { result ≡ record { sign = Sign.T; form = form } }
{
    SignedId {
        sign: Sign::T,
        form,
    }
}

/// The formula under the sign `F`.
fn fails(form: FormId) -> SignedId
    ensures { result ≡ record { sign = Sign.F; form = form } }
{
    SignedId {
        sign: Sign::F,
        form,
    }
}
