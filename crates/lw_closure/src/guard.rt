ghost use Rattle.std.specs.Prelude.{◌≡◌, ◌+◌, ◌≤◌, Contains, IfOk, length};
ghost use Rattle.lw_formula.specs.Components.{guard_of};
ghost use Rattle.lw_pool.specs.Region.{tree_at, signed_at, IsLive, Grows};
ghost use Rattle.lw_closure.specs.Private.NumberedForms.{IsNumbering};
ghost use Rattle.lw_closure.specs.Private.GuardNumbers.{own_guard, body_in, first_in, AddsGuard, HasGuards, FitsLogic};
ghost use Rattle.lw_closure.specs.Table.{most_forms};

use crate::fault::SUBFORMULA_LIMIT;
use crate::item::item_number;
use crate::numbering::{add, form_at};
use indexmap::IndexSet;
use lw_formula::{Logic, Sign};
use lw_pool::{FormId, Node, Pool, SignedId};
use std::alloc::{AllocError, Global};

/// The numbers of the guards of these formulas' πs, for each formula one or none, where the logic has guards. The
/// guards and what they are made of are put into the pool and behind the formulas.
pub(crate) fn add_guards(
    alloc: Global,
    pool: &mut Pool,
    logic: Logic,
    forms: &mut IndexSet<FormId>,
) -> Result<Vec<Option<usize>>, AllocError>
    requires numbering { IsNumbering pool.old forms.old.keys }
    requires few { length forms.old.keys ≤ SUBFORMULA_LIMIT }
    ensures grows { Grows pool.old pool.new }
    ensures guards { IfOk result (λ guards. HasGuards pool.new forms.old.keys forms.new.keys guards.items) }
    ensures fits { IfOk result (λ guards. FitsLogic logic (length forms.old.keys) guards.items) }
{
    match logic {
        Logic::K | Logic::KT | Logic::S4 | Logic::S5 | Logic::GL | Logic::K4 | Logic::KD => Ok(
            Vec::new(alloc),
        ),
        Logic::Grz => add_each_guard(alloc, pool, forms),
    }
}

/// The same in Grz.
fn add_each_guard(
    alloc: Global,
    pool: &mut Pool,
    forms: &mut IndexSet<FormId>,
) -> Result<Vec<Option<usize>>, AllocError>
    requires numbering { IsNumbering pool.old forms.old.keys }
    requires few { length forms.old.keys ≤ SUBFORMULA_LIMIT }
    ensures grows { Grows pool.old pool.new }
    ensures guards { IfOk result (λ guards. HasGuards pool.new forms.old.keys forms.new.keys guards.items) }
    ensures all { IfOk result (λ guards. length guards.items ≡ length forms.old.keys) }
{
    let mut guards = Vec::new(alloc);
    for at in 0..forms.len() {
        let form = form_at(forms, at);
        let guard = add_guard(pool, forms, form)?;
        guards.push(guard)?;
    }
    Ok(guards)
}

/// The number of the guard of the formula's π, if it has one. The guard is put behind the formulas, and before it what
/// it is made of.
fn add_guard(
    pool: &mut Pool,
    forms: &mut IndexSet<FormId>,
    form: FormId,
) -> Result<Option<usize>, AllocError>
    requires numbering { IsNumbering pool.old forms.old.keys }
    requires there { Contains forms.old.keys form }
    requires few { length forms.old.keys + 3 ≤ most_forms }
    ensures grows { Grows pool.old pool.new }
    ensures added { IfOk result (AddsGuard pool.new forms.old.keys forms.new.keys (tree_at pool.old form)) }
{
    let item = pi_of(pool, form);
    match pool.guard(item)? {
        Some(guard) => {
            let body = body_of(pool, guard.form);
            let first = first_of(pool, body);
            add(forms, first)?;
            add(forms, body)?;
            let at = add(forms, guard.form)?;
            Ok(Some(item_number(at, guard.sign)))
        }
        None => Ok(None),
    }
}

/// The formula under the sign under which it is a π, if it is modal.
fn pi_of(pool: &Pool, form: FormId) -> SignedId
    requires { IsLive pool.now form }
    ensures form { result.form ≡ form }
    ensures guard { guard_of (signed_at pool.now result) ≡ own_guard (tree_at pool.now form) }
{
    let sign = match pool.node(form) {
        Node::Poss(_) => Sign::T,
        _ => Sign::F,
    };
    SignedId { sign, form }
}

/// What stands behind the guard's `box` or `dia`: `A -> box A` or `~A & dia A`.
fn body_of(pool: &Pool, guard: FormId) -> FormId
    requires { IsLive pool.now guard }
    ensures live { IsLive pool.now result }
    ensures body { tree_at pool.now result ≡ body_in (tree_at pool.now guard) }
{
    match pool.node(guard) {
        Node::Nec(body) | Node::Poss(body) => *body,
        _ => guard,
    }
}

/// What the guard's body has on its left: `A` or `~A`.
fn first_of(pool: &Pool, body: FormId) -> FormId
    requires { IsLive pool.now body }
    ensures live { IsLive pool.now result }
    ensures first { tree_at pool.now result ≡ first_in (tree_at pool.now body) }
{
    match pool.node(body) {
        Node::Imp(first, _) | Node::And(first, _) => *first,
        _ => body,
    }
}
