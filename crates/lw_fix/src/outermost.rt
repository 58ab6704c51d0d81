ghost use Rattle.std.specs.Prelude.{◌≡◌, ◌<◌, ◌≤◌, [], ◌∷◌, ◌++◌, length, if◌then◌else◌, IfOk, OnOk};
ghost use Rattle.lw_formula.specs.Formula.{is_modal};
ghost use Rattle.lw_pool.specs.Region.{tree_at, tree_of_node, IsLive, AreChildrenBelow, is_marked};
ghost use Rattle.lw_pool.specs.Walk.{AreOperandsRight};
ghost use Rattle.lw_fix.specs.Outermost.{has_letter};
ghost use Rattle.lw_fix.specs.Private.OutermostIds.{IsLetterTable, AreBareMarks, AreOutermost, is_wanted, with_bare_children};

use lw_formula::Name;
use lw_pool::{FormId, Node, Pool};
use std::alloc::{AllocError, Global};

/// The ids of the formula's outermost modal subformulas with the variable, each once.
pub fn outermost(
    alloc: Global,
    pool: &Pool,
    name: &Name,
    id: FormId,
) -> Result<Vec<FormId>, AllocError>
    requires { IsLive pool.now id }
    ensures { IfOk result (λ ids. AreOutermost pool.now name.now (tree_at pool.now id) ids.items) }
{
    let marks = bare_marks(alloc, pool, id)?;
    let letters = letter_table(alloc, pool, name, marks.len())?;
    let mut ids = Vec::new(alloc);
    let _ = pool.count();
    for at in 0..marks.len() {
        let wanted = is_wanted(pool, &marks, &letters, FormId(at));
        keep(&mut ids, FormId(at), wanted)?;
    }
    Ok(ids)
}

/// Whether both tables have the formula, and it begins with `box` or `dia`.
fn is_wanted(pool: &Pool, marks: &[bool], letters: &[bool], at: FormId) -> bool
    requires at { IsLive pool.now at }
    requires marks { at.0 < length marks.now }
    requires letters { at.0 < length letters.now }
    ensures { result ≡ is_wanted pool.now marks.now letters.now at }
{
    marks[at.0] && letters[at.0] && is_modal(pool, at)
}

/// Puts the id behind the others, if it is wanted.
fn keep(ids: &mut Vec<FormId>, at: FormId, wanted: bool) -> Result<(), AllocError>
    ensures { OnOk result (ids.new.items ≡ (if wanted then ids.old.items ++ at ∷ [] else ids.old.items)) }
{
    if wanted {
        ids.push(at)?;
    }
    Ok(())
}

/// Whether the formula begins with `box` or `dia`.
fn is_modal(pool: &Pool, at: FormId) -> bool
    requires { IsLive pool.now at }
    ensures { result ≡ is_modal (tree_at pool.now at) }
{
    matches!(pool.node(at), Node::Nec(_) | Node::Poss(_))
}

/// For each id below the count, whether the variable is in its formula.
fn letter_table(
    alloc: Global,
    pool: &Pool,
    name: &Name,
    count: usize,
) -> Result<Vec<bool>, AllocError>
    requires { count ≤ length pool.now }
    ensures { IfOk result (λ letters. IsLetterTable pool.now name.now count letters.items) }
{
    let mut letters = Vec::with_capacity(alloc, count)?;
    for at in 0..count {
        let own = has_letter(pool, name, FormId(at), &letters);
        letters.push(own)?;
    }
    Ok(letters)
}

/// Whether the variable is in the formula, by what the table says of its operands.
fn has_letter(pool: &Pool, name: &Name, at: FormId, letters: &[bool]) -> bool
    requires at { IsLive pool.now at }
    requires long { at.0 ≤ length letters.now }
    requires operands { AreOperandsRight (λ a own. own ≡ has_letter name.now a) pool.now letters.now at }
    ensures { result ≡ has_letter name.now (tree_at pool.now at) }
{
    match pool.node(at) {
        Node::Var(own) => own == name,
        Node::Bot | Node::Top => false,
        Node::Not(a) | Node::Nec(a) | Node::Poss(a) => letters[a.0],
        Node::And(a, b) | Node::Or(a, b) | Node::Imp(a, b) | Node::Iff(a, b) => letters[a.0]
            || letters[b.0],
    }
}

/// For each id from 0 to this one, whether its formula has an occurrence in this one's under no modality.
fn bare_marks(alloc: Global, pool: &Pool, id: FormId) -> Result<Vec<bool>, AllocError>
    requires { IsLive pool.now id }
    ensures { IfOk result (λ marks. AreBareMarks pool.now id marks.items) }
{
    let mut marks = vec![in alloc; false; id.0]?;
    marks.push(true)?;
    let _ = pool.count();
    // operands stand below their formula
    for at in (0..marks.len()).rev() {
        hand_down(&mut marks, at, pool.node(FormId(at)));
    }
    Ok(marks)
}

/// Marks the operands at this place, if the place is marked and its formula begins with no modality.
fn hand_down(marks: &mut Vec<bool>, at: usize, node: &Node)
    requires within { at < length marks.old.items }
    requires below { AreChildrenBelow at node.now }
    ensures { marks.new.items ≡
        (if is_marked marks.old.items at then with_bare_children node.now marks.old.items else marks.old.items) }
{
    if !marks[at] {
        return;
    }
    match node {
        Node::Var(_) | Node::Bot | Node::Top | Node::Nec(_) | Node::Poss(_) => {}
        Node::Not(a) => marks[a.0] = true,
        Node::And(a, b) | Node::Or(a, b) | Node::Imp(a, b) | Node::Iff(a, b) => {
            marks[a.0] = true;
            marks[b.0] = true;
        }
    }
}
