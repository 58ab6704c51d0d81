ghost use Rattle.std.specs.Prelude.{◌≡◌, ◌↔◌, ◌<◌, All, IsTrue, IfOk, length, map};
ghost use Rattle.lw_formula.specs.Validity.{Valid};
ghost use Rattle.lw_pool.specs.Region as region;
ghost use Rattle.lw_pool.specs.Region.{IsLive, Grows, tree_at};
ghost use Rattle.lw_sets.specs.IdSets.{set_of, AreLive};
ghost use Rattle.lw_share.specs.Pooled.{line_of, table_at, IsTableLive};
ghost use Rattle.lw_share.specs.SharedProofs.{CiteEach, SharedProves};
ghost use Rattle.lw_share.specs.SharedVerdicts.{IsAccepted, IsSharedVerdict};
ghost use Rattle.lw_share.specs.Private.PremiseLists.{AreAllLive, TellsApplies, TellsHolds};

use crate::premise::premises;
use crate::sets::{collected, is_within, only};
use crate::table::Table;
use crate::verdict::SharedVerdict;
use lw_formula::{Logic, Parts, Sign};
use lw_pool::{FormId, Pool, SignedId};
use lw_proof::{Rule, SignedIds, has_cut, has_refl, has_serial};
use lw_sets::has;
use std::alloc::{AllocError, Global};

/// Whether the table is a proof of the goal in the logic, with this line as its root; and else the first line that
/// doesn't hold, or the count where only the root's set has something beside the goal under F. It fails for want of
/// memory alone. After every answer the pool has what it had, and perhaps formulas above. Each line takes time in its set
/// and in those that it cites.
pub fn check_shared(
    alloc: Global,
    pool: &mut Pool,
    logic: Logic,
    goal: FormId,
    table: &Table,
    root: usize,
) -> Result<SharedVerdict, AllocError>
    requires goal { IsLive pool.old goal }
    requires table { IsTableLive pool.old table.now }
    requires root { root < length table.now }
    ensures verdict { IfOk result (IsSharedVerdict logic (table_at pool.old table.now) root (tree_at pool.old goal)) }
    ensures accepted { IfOk result (λ v. IsAccepted v ↔ SharedProves logic (table_at pool.old table.now) root (tree_at pool.old goal)) }
    ensures valid { IfOk result (λ v. IsAccepted v → Valid logic (tree_at pool.old goal)) }
    ensures grows { Grows pool.old pool.new }
{
    let cuts = pool.subformula_table(goal)?;
    for line in 0..table.count() {
        if !holds(alloc, pool, logic, &cuts, table, line)? {
            return Ok(SharedVerdict::Rejected { line });
        }
    }
    let start = only(alloc, goal)?;
    if is_within(pool, table.set(root), &start) {
        Ok(SharedVerdict::Accepted)
    } else {
        Ok(SharedVerdict::Rejected {
            line: table.count(),
        })
    }
}

/// Whether the line holds, where the marked formulas may be cut.
fn holds(
    alloc: Global,
    pool: &mut Pool,
    logic: Logic,
    cuts: &[bool],
    table: &Table,
    line: usize,
) -> Result<bool, AllocError>
    requires table { IsTableLive pool.old table.now }
    requires line { line < length table.now }
    ensures told { IfOk result (TellsHolds logic pool.old cuts.now table.now (line_of table.now line)) }
    ensures grows { Grows pool.old pool.new }
{
    prove!(line < table.count());
    let items = collected(alloc, table.set(line))?;
    let (rule, item) = (table.rule(line), table.principal(line));
    if !applies(pool, logic, cuts, &items, rule, item) {
        return Ok(false);
    }
    let premises = premises(alloc, pool, logic, &items, rule, item)?;
    Ok(cites_each(pool, table, table.cites(line), &premises))
}

/// Whether the rule may be used on the item, where the items are to be closed and the marked formulas may be cut.
fn applies(
    pool: &Pool,
    logic: Logic,
    cuts: &[bool],
    items: &SignedIds,
    rule: Rule,
    item: SignedId,
) -> bool
    requires items { AreLive pool.now items.now }
    requires item { IsLive pool.now item.form }
    ensures { TellsApplies logic pool.now cuts.now items.now rule item result }
{
    let parts = pool.parts(item);
    match rule {
        Rule::Close => {
            matches!(item.sign, Sign::T) && has(pool, items, item) && has(pool, items, item.flip())
        }
        Rule::Absurd => pool.is_absurd(item) && has(pool, items, item),
        Rule::One => matches!(parts, Parts::One(_, _)) && has(pool, items, item),
        Rule::Two => matches!(parts, Parts::Two(_, _)) && has(pool, items, item),
        Rule::Refl => { has_refl(logic) && matches!(parts, Parts::Nu(_)) && has(pool, items, item) }
        Rule::Step => matches!(parts, Parts::Pi(_)) && has(pool, items, item),
        Rule::Serial => {
            has_serial(logic) && matches!(parts, Parts::Nu(_)) && has(pool, items, item)
        }
        Rule::Cut => {
            has_cut(logic)
                && matches!(item.sign, Sign::T)
                && matches!(parts, Parts::Nu(_) | Parts::Pi(_))
                && is_marked(cuts, item.form)
        }
    }
}

/// Whether the formula is marked. One above all marks isn't.
fn is_marked(cuts: &[bool], form: FormId) -> bool
    ensures { result ≡ region.is_marked cuts.now form.0 }
{
    form.0 < cuts.len() && cuts[form.0]
}

/// Whether as many lines are cited as there are premises, and the set of each is within its premise.
fn cites_each(pool: &Pool, table: &Table, cites: &[usize], premises: &[SignedIds]) -> bool
    requires table { IsTableLive pool.now table.now }
    requires cites { All (λ c. c < length table.now) cites.now }
    requires premises { AreAllLive pool.now premises.now }
    ensures { IsTrue result ↔ CiteEach (table_at pool.now table.now) cites.now (map (set_of pool.now) premises.now) }
{
    if cites.len() != premises.len() {
        return false;
    }
    for i in 0..cites.len() {
        if !is_within(pool, table.set(cites[i]), &premises[i]) {
            return false;
        }
    }
    true
}
