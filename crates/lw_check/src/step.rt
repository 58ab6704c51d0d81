ghost use Rattle.std.specs.Prelude.{◌≡◌, ◌<◌, length, IsTrue, IfNone};
ghost use Rattle.lw_formula.specs.Signed.{Signed, SignedSet};
ghost use Rattle.lw_pool.specs.Region as region;
ghost use Rattle.lw_pool.specs.Region.{IsLive, signed_at};
ghost use Rattle.lw_proof.specs.Tree.{rule_of, principal_of, subs_of};
ghost use Rattle.lw_proof.specs.System.{trees};
ghost use Rattle.lw_proof.specs.Break as breaks;
ghost use Rattle.lw_proof.specs.Pooled.{IsProofLive};
ghost use Rattle.lw_sets.specs.IdSets.{set_of, AreLive};
ghost use Rattle.lw_check.specs.Private.ProofWalk.{TellsReason};

use lw_formula::{Logic, Parts, Sign};
use lw_pool::{FormId, Pool, SignedId};
use lw_proof::{Proof, Rule, SignedIds, Why, has_cut, has_refl, has_serial};
use lw_sets::has;

/// Why the first step of the proof breaks its rule, where the items are to be closed and the marked formulas may be
/// cut.
pub(crate) fn refusal(
    pool: &Pool,
    logic: Logic,
    cuts: &[bool],
    items: &SignedIds,
    proof: &Proof,
) -> Option<Why>
    requires items { AreLive pool.now items.now }
    requires proof { IsProofLive pool.now proof.now }
    ensures reason { TellsReason logic pool.now cuts.now items.now proof.now result }
    ensures fits { IfNone result (IsTrue (breaks.fits trees (rule_of proof.now) (signed_at pool.now (principal_of proof.now)))) }
    ensures arity { IfNone result (length (subs_of proof.now) ≡ breaks.arity (rule_of proof.now)) }
{
    let (rule, item) = (proof.rule(), proof.principal());
    if !in_logic(logic, rule) {
        return Some(Why::Logic);
    }
    if !fits(pool, rule, item) {
        return Some(Why::Shape);
    }
    if proof.count() != rule.arity() {
        return Some(Why::Arity);
    }
    if !present(pool, items, rule, item) {
        return Some(Why::Missing);
    }
    if !allowed(cuts, rule, item.form) {
        return Some(Why::Goal);
    }
    None
}

/// Whether the rule is one of the logic.
fn in_logic(logic: Logic, rule: Rule) -> bool
    ensures { result ≡ breaks.in_logic logic rule }
{
    match rule {
        Rule::Close | Rule::Absurd | Rule::One | Rule::Two | Rule::Step => true,
        Rule::Refl => has_refl(logic),
        Rule::Serial => has_serial(logic),
        Rule::Cut => has_cut(logic),
    }
}

/// Whether the rule takes such a principal.
fn fits(pool: &Pool, rule: Rule, item: SignedId) -> bool
    requires { IsLive pool.now item.form }
    ensures { result ≡ breaks.fits trees rule (signed_at pool.now item) }
{
    let parts = pool.parts(item);
    match rule {
        Rule::Close => matches!(item.sign, Sign::T),
        Rule::Absurd => pool.is_absurd(item),
        Rule::One => matches!(parts, Parts::One(_, _)),
        Rule::Two => matches!(parts, Parts::Two(_, _)),
        Rule::Refl => matches!(parts, Parts::Nu(_)),
        Rule::Step => matches!(parts, Parts::Pi(_)),
        Rule::Serial => matches!(parts, Parts::Nu(_)),
        Rule::Cut => {
            matches!(item.sign, Sign::T) && matches!(parts, Parts::Nu(_) | Parts::Pi(_))
        }
    }
}

/// Whether the items have what must be there.
fn present(pool: &Pool, items: &SignedIds, rule: Rule, item: SignedId) -> bool
    requires items { AreLive pool.now items.now }
    requires item { IsLive pool.now item.form }
    ensures { result ≡ breaks.present trees (set_of pool.now items.now) rule (signed_at pool.now item) }
{
    match rule {
        Rule::Close => has(pool, items, item) && has(pool, items, item.flip()),
        Rule::Absurd | Rule::One | Rule::Two | Rule::Refl | Rule::Step | Rule::Serial => {
            has(pool, items, item)
        }
        Rule::Cut => true,
    }
}

/// Whether a cut, if the rule is one, is on a formula that is marked.
fn allowed(cuts: &[bool], rule: Rule, form: FormId) -> bool
    ensures { (C : SignedSet) (s : Signed) → region.is_marked cuts.now form.0 ≡ C s → result ≡ breaks.in_goal trees C rule s }
{
    match rule {
        Rule::Close
        | Rule::Absurd
        | Rule::One
        | Rule::Two
        | Rule::Refl
        | Rule::Step
        | Rule::Serial => true,
        Rule::Cut => is_marked(cuts, form),
    }
}

/// Whether the formula is marked. One above all marks isn't.
fn is_marked(cuts: &[bool], form: FormId) -> bool
    ensures { result ≡ region.is_marked cuts.now form.0 }
{
    form.0 < cuts.len() && cuts[form.0]
}
