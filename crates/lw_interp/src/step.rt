ghost use Rattle.std.specs.Prelude.{◌≡◌, [], length, IfOk, IfSome};
ghost use Rattle.lw_formula.specs.Components.{parts_of};
ghost use Rattle.lw_pool.specs.Region.{IsLive, IsAt, Grows, tree_at, signed_at, parts_at, ArePartsBelow};
ghost use Rattle.lw_interp.specs.Maehara as maehara;
ghost use Rattle.lw_interp.specs.Private.SideLists.{sides_at, AreSidesLive};
ghost use Rattle.lw_interp.specs.Private.ReadSteps as steps;
ghost use Rattle.lw_interp.specs.Private.ReadSteps.{components_of};

use crate::sides::SideIds;
use lw_formula::{Logic, Parts};
use lw_pool::{FormId, Node, Pool, SignedId};
use lw_proof::Rule;
use std::alloc::AllocError;

/// The components of the principal that the rule adds: none where it closes its set, nor where no logic with interpolants
/// has it.
pub(crate) fn components(pool: &Pool, rule: Rule, item: SignedId) -> Parts<SignedId>
    requires { IsLive pool.now item.form }
    ensures parts { parts_at pool.now result ≡ components_of rule (parts_of (signed_at pool.now item)) }
    ensures live { ArePartsBelow (length pool.now) result }
{
    match rule {
        Rule::One | Rule::Two | Rule::Refl | Rule::Step => pool.parts(item),
        Rule::Close | Rule::Absurd | Rule::Serial | Rule::Cut => Parts::Nothing,
    }
}

/// What a step on the π adds beside its component, in a logic with interpolants: in GL the π under the other sign.
pub(crate) fn companion(logic: Logic, item: SignedId) -> Option<SignedId>
    ensures added { steps.IsCompanion logic item result }
    ensures same { IfSome result (λ other. other.form ≡ item.form) }
{
    match logic {
        Logic::GL => Some(item.flip()),
        Logic::K | Logic::KT | Logic::S4 | Logic::S5 | Logic::Grz | Logic::K4 | Logic::KD => None,
    }
}

/// The interpolant of a step without premises.
pub(crate) fn leaf(
    pool: &mut Pool,
    sides: &SideIds,
    rule: Rule,
    item: SignedId,
) -> Result<FormId, AllocError>
    requires sides { AreSidesLive pool.old sides.now }
    requires item { IsLive pool.old item.form }
    ensures at { IfOk result (IsAt pool.new (maehara.joined rule (signed_at pool.old item) (sides_at pool.old sides.now) [])) }
    ensures grows { Grows pool.old pool.new }
{
    let left = sides.place(pool, item).is_left();
    match rule {
        Rule::Close => {
            let other_left = sides.place(pool, item.flip()).is_left();
            closing(pool, item.form, left, other_left)
        }
        Rule::Absurd => absurdity(pool, left),
        Rule::One | Rule::Two | Rule::Refl | Rule::Step | Rule::Serial | Rule::Cut => {
            pool.make(Node::Top)
        }
    }
}

/// The interpolant of a Close, whose formula stands on the left under its principal's sign, or under the other.
fn closing(
    pool: &mut Pool,
    form: FormId,
    left: bool,
    other_left: bool,
) -> Result<FormId, AllocError>
    requires { IsLive pool.old form }
    ensures at { IfOk result (IsAt pool.new (maehara.closing left other_left (tree_at pool.old form))) }
    ensures grows { Grows pool.old pool.new }
{
    match (left, other_left) {
        (true, true) => pool.make(Node::Bot),
        (true, false) => Ok(form),
        (false, true) => pool.make(Node::Not(form)),
        (false, false) => pool.make(Node::Top),
    }
}

/// The interpolant of an Absurd.
fn absurdity(pool: &mut Pool, left: bool) -> Result<FormId, AllocError>
    ensures at { IfOk result (IsAt pool.new (maehara.absurdity left)) }
    ensures grows { Grows pool.old pool.new }
{
    if left {
        pool.make(Node::Bot)
    } else {
        pool.make(Node::Top)
    }
}

/// The interpolant of a Two, from those of its premises.
pub(crate) fn of_two(
    pool: &mut Pool,
    left: bool,
    first: FormId,
    second: FormId,
) -> Result<FormId, AllocError>
    requires first { IsLive pool.old first }
    requires second { IsLive pool.old second }
    ensures at { IfOk result (IsAt pool.new (maehara.of_two left (tree_at pool.old first) (tree_at pool.old second))) }
    ensures grows { Grows pool.old pool.new }
{
    if left {
        pool.make(Node::Or(first, second))
    } else {
        pool.make(Node::And(first, second))
    }
}

/// The interpolant of a Step, from that of its premise.
pub(crate) fn of_step(pool: &mut Pool, left: bool, inner: FormId) -> Result<FormId, AllocError>
    requires { IsLive pool.old inner }
    ensures at { IfOk result (IsAt pool.new (maehara.of_step left (tree_at pool.old inner))) }
    ensures grows { Grows pool.old pool.new }
{
    if left {
        pool.make(Node::Poss(inner))
    } else {
        pool.make(Node::Nec(inner))
    }
}
