ghost use Rattle.std.specs.Prelude.{◌≡◌, length, IsTrue};
ghost use Rattle.lw_pool.specs.Region.{IsLive, signed_at};
ghost use Rattle.lw_proof.specs.System.{trees};
ghost use Rattle.lw_proof.specs.Break.{fits, arity};
ghost use Rattle.lw_check.specs.Private.LeftSets.{count_left, IsLeftBelow, Leaves};

use lw_formula::Parts;
use lw_pool::{Pool, SignedId};
use lw_proof::Rule;

/// Which sets a step leaves to be closed, of the set that it is to close.
pub(crate) enum Left {
    /// None: the step closes the set.
    Nothing,
    /// The set with the components of one side.
    One((SignedId, Option<SignedId>)),
    /// The set with the components of the one side, and with those of the other.
    Two((SignedId, Option<SignedId>), (SignedId, Option<SignedId>)),
    /// What is kept of the set, with this component of a π and what the logic adds.
    Stepped(SignedId),
    /// What is kept of the set, alone.
    Kept,
}

/// What the step leaves to be closed: for a cut the set with the formula under each sign, else what the item comes to.
pub(crate) fn left_by(pool: &Pool, rule: Rule, item: SignedId) -> Left
    requires live { IsLive pool.now item.form }
    requires fits { IsTrue (fits trees rule (signed_at pool.now item)) }
    ensures sets { Leaves pool.now rule item result }
    ensures live { IsLeftBelow (length pool.now) result }
    ensures count { count_left result ≡ arity rule }
{
    match (rule, pool.parts(item)) {
        (Rule::One, Parts::One(first, second)) => Left::One((first, second)),
        (Rule::Two, Parts::Two(one, other)) => Left::Two(one, other),
        (Rule::Refl, Parts::Nu(part)) => Left::One((part, None)),
        (Rule::Step, Parts::Pi(part)) => Left::Stepped(part),
        (Rule::Serial, Parts::Nu(_)) => Left::Kept,
        (Rule::Cut, _) => Left::Two((item, None), (item.flip(), None)),
        (
            Rule::Close
            | Rule::Absurd
            | Rule::One
            | Rule::Two
            | Rule::Refl
            | Rule::Step
            | Rule::Serial,
            _,
        ) => Left::Nothing,
    }
}
