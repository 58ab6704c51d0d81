ghost use Rattle.std.specs.Prelude.{◌≡◌, ◌*◌, ◌/◌, ◌<◌, ◌≤◌, Contains, EachIndex, IfOk, None, if◌then◌else◌, length};
ghost use Rattle.std.specs.List.{slice_index_or};
ghost use Rattle.lw_pool.specs.Region.{AreIdsExact};
ghost use Rattle.lw_proof.specs.Derivation.{is_pi};
ghost use Rattle.lw_closure.specs.Private.NumberedForms.{IsNumbering};
ghost use Rattle.lw_closure.specs.Private.TableEntries.{AreEntries, IsEntry};
ghost use Rattle.lw_closure.specs.Mapping.{map_both, map_parts, OfBoth, OfParts};
ghost use Rattle.lw_closure.specs.Table.{item_of, most_forms};

use crate::entry::Entry;
use crate::numbering::{item_at, number};
use indexmap::IndexSet;
use lw_formula::Parts;
use lw_pool::{FormId, Pool, SignedId};
use std::alloc::{AllocError, Global};

/// What the rules have to know of each item, by its number.
pub(crate) fn entries(
    alloc: Global,
    pool: &Pool,
    forms: &IndexSet<FormId>,
    guards: &[Option<usize>],
) -> Result<Vec<Entry>, AllocError>
    requires numbering { IsNumbering pool.now forms.now.keys }
    requires few { length forms.now.keys ≤ most_forms }
    ensures entries { IfOk result (λ entries. AreEntries pool.now forms.now.keys guards.now entries.items) }
    ensures all { IfOk result (λ entries. length entries.items ≡ 2 * length forms.now.keys) }
    ensures exact { AreIdsExact pool.now }
{
    // a pool that counts its formulas tells that ids that differ have formulas that differ
    let _ = pool.count();
    let mut entries = Vec::new(alloc);
    for item in 0..2 * forms.len() {
        entries.push(entry(pool, forms, guards, item))?;
    }
    Ok(entries)
}

/// What the rules have to know of the item.
fn entry(pool: &Pool, forms: &IndexSet<FormId>, guards: &[Option<usize>], item: usize) -> Entry
    requires numbering { IsNumbering pool.now forms.now.keys }
    requires exact { AreIdsExact pool.now }
    requires few { length forms.now.keys ≤ most_forms }
    requires there { item < 2 * length forms.now.keys }
    ensures { IsEntry pool.now forms.now.keys guards.now item result }
{
    let id = item_at(forms, item);
    let parts = numbered(forms, pool.parts(id));
    Entry {
        parts,
        guard: guard(guards, item / 2, parts),
        absurd: pool.is_absurd(id),
    }
}

/// The guard of an item of the formula, which only a π has.
fn guard(guards: &[Option<usize>], form: usize, parts: Parts<usize>) -> Option<usize>
    ensures { result ≡ (if is_pi parts then slice_index_or guards.now form None else None) }
{
    match parts {
        Parts::Pi(_) if form < guards.len() => guards[form],
        _ => None,
    }
}

/// The components by their numbers.
fn numbered(forms: &IndexSet<FormId>, parts: Parts<SignedId>) -> Parts<usize>
    requires few { length forms.now.keys ≤ most_forms }
    requires there { OfParts (λ s. Contains forms.now.keys s.form) parts }
    ensures same { map_parts (item_of forms.now.keys) result ≡ parts }
    ensures within { OfParts (λ i. i < 2 * length forms.now.keys) result }
{
    match parts {
        Parts::Nothing => Parts::Nothing,
        Parts::One(a, b) => {
            let (a, b) = both_numbers(forms, (a, b));
            Parts::One(a, b)
        }
        Parts::Two(p, q) => Parts::Two(both_numbers(forms, p), both_numbers(forms, q)),
        Parts::Nu(a) => Parts::Nu(number_of(forms, a)),
        Parts::Pi(a) => Parts::Pi(number_of(forms, a)),
    }
}

/// The numbers of a first and perhaps a second signed formula.
fn both_numbers(
    forms: &IndexSet<FormId>,
    both: (SignedId, Option<SignedId>),
) -> (usize, Option<usize>)
    requires few { length forms.now.keys ≤ most_forms }
    requires there { OfBoth (λ s. Contains forms.now.keys s.form) both }
    ensures same { map_both (item_of forms.now.keys) result ≡ both }
    ensures within { OfBoth (λ i. i < 2 * length forms.now.keys) result }
{
    let (first, second) = both;
    let first = number_of(forms, first);
    match second {
        Some(second) => (first, Some(number_of(forms, second))),
        None => (first, None),
    }
}

/// The number of a signed formula that has one.
fn number_of(forms: &IndexSet<FormId>, item: SignedId) -> usize
    requires few { length forms.now.keys ≤ most_forms }
    requires there { Contains forms.now.keys item.form }
    ensures same { item_of forms.now.keys result ≡ item }
    ensures within { result < 2 * length forms.now.keys }
{
    match number(forms, item) {
        Some(i) => i,
        None => unreachable!(),
    }
}
