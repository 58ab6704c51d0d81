//! Cases on the text's formula, as a tree and in a pool.

ghost use Rattle.std.specs.Prelude.{IfOk};
ghost use Rattle.lw_pool.specs.Region.{IsLive, Grows};

use crate::items::add_item;
use crate::numbers::sides;
use crate::unanswered::Unanswered;
use lw_formula::{Form, Name};
use lw_pool::{FormId, Pool};
use lw_read::{PrintFault, print_form, print_formula, read_formula};
use std::alloc::{AllocError, Global};

/// Puts the text's formula into the pool.
pub fn entered(alloc: Global, pool: &mut Pool, text: &[u8]) -> Result<FormId, Unanswered>
    ensures live { IfOk result (IsLive pool.new) }
    ensures grows { Grows pool.old pool.new }
{
    let form = read_formula(alloc, text)?;
    Ok(pool.from_form(&form)?)
}

fn name_of(alloc: Global, bytes: &[u8]) -> Result<Name, Unanswered> {
    Ok(Name::from_bytes(alloc, bytes)?)
}

// The names with commas.
fn name_list(alloc: Global, names: &[Name]) -> Result<String, AllocError> {
    let mut list = String::new(alloc);
    for name in names {
        let item = String::from_utf8_lossy(alloc, name.as_bytes())?;
        add_item(&mut list, item.as_str())?;
    }
    Ok(list)
}

// What a tree says of its formula.
fn of_tree(alloc: Global, form: &Form) -> Result<String, AllocError> {
    let names = name_list(alloc, &form.variables(alloc)?)?;
    format!(in alloc; "depth {}, variables {names}", form.modal_depth())
}

fn of_copy(alloc: Global, form: &Form) -> Result<String, AllocError> {
    let copy = form.try_clone(alloc)?;
    of_tree(alloc, &copy)
}

/// The modal depth and the variables, by a copy of the tree.
pub fn tree_line(alloc: Global, text: &[u8]) -> Result<Vec<u8>, Unanswered> {
    let form = read_formula(alloc, text)?;
    Ok(of_copy(alloc, &form)?.into_bytes())
}

fn names_in(alloc: Global, pool: &Pool, id: FormId) -> Result<String, AllocError>
    requires { IsLive pool.now id }
{
    let names = pool.variables(id)?;
    name_list(alloc, &names)
}

// What a pool says of its formula.
fn of_pool(alloc: Global, pool: &Pool, id: FormId) -> Result<String, AllocError>
    requires { IsLive pool.now id }
{
    let depth = pool.modal_depth(id)?;
    let count = pool.subformulas(id)?.len();
    let names = names_in(alloc, pool, id)?;
    format!(in alloc;
        "depth {depth}, variables {names}, {count} subformulas, id {}",
        id.0
    )
}

/// The modal depth, the variables, the number of distinct subformulas, and the id.
pub fn pool_line(alloc: Global, text: &[u8]) -> Result<Vec<u8>, Unanswered> {
    let mut pool = Pool::new(alloc);
    let id = entered(alloc, &mut pool, text)?;
    Ok(of_pool(alloc, &pool, id)?.into_bytes())
}

fn printed_back(alloc: Global, pool: &Pool, id: FormId) -> Result<Vec<u8>, AllocError>
    requires { IsLive pool.now id }
{
    let tree = pool.to_form(id)?;
    print_form(alloc, &tree)
}

// One text and another.
fn pair(left: &mut Vec<u8>, right: &[u8]) -> Result<(), AllocError> {
    left.extend_from_slice(b" = ")?;
    left.extend_from_slice(right)
}

fn printed(alloc: Global, pool: &Pool, id: FormId) -> Result<Vec<u8>, Unanswered>
    requires { IsLive pool.now id }
{
    let tree = printed_back(alloc, pool, id)?;
    let mut text = print_formula(alloc, pool, id)?;
    pair(&mut text, &tree)?;
    Ok(text)
}

/// The text that a pool prints, and that of the tree that it gives back.
pub fn print_line(alloc: Global, text: &[u8]) -> Result<Vec<u8>, Unanswered> {
    let mut pool = Pool::new(alloc);
    let id = entered(alloc, &mut pool, text)?;
    printed(alloc, &pool, id)
}

// The printed text of the formula with another for the variable, by the trees.
fn replaced(alloc: Global, form: &Form, name: &Name, by: &Form) -> Result<Vec<u8>, AllocError> {
    let new = form.substitute(alloc, name, by)?;
    print_form(alloc, &new)
}

// The same by a pool.
fn replaced_in(
    alloc: Global,
    pool: &mut Pool,
    form: &Form,
    name: &Name,
    by: &Form,
) -> Result<Vec<u8>, Unanswered> {
    let by = pool.from_form(by)?;
    let id = pool.from_form(form)?;
    let new = pool.substitute(id, name, by)?;
    Ok(print_formula(alloc, pool, new)?)
}

fn both(alloc: Global, form: &Form, name: &Name, by: &Form) -> Result<Vec<u8>, Unanswered> {
    let mut pool = Pool::new(alloc);
    let mut text = replaced_in(alloc, &mut pool, form, name, by)?;
    pair(&mut text, &replaced(alloc, form, name, by)?)?;
    Ok(text)
}

/// The text's formula with another for a variable, by a pool and by the tree: `NAME FORMULA`.
pub fn replace_line(alloc: Global, text: &[u8], rest: &[u8]) -> Result<Vec<u8>, Unanswered> {
    let (name, by) = sides(rest, b' ')?;
    let name = name_of(alloc, name)?;
    let form = read_formula(alloc, text)?;
    let by = read_formula(alloc, by)?;
    both(alloc, &form, &name, &by)
}

/// How long the printed text is, or that it is too long.
pub fn length_of_text(alloc: Global, pool: &Pool, id: FormId) -> Result<String, AllocError>
    requires { IsLive pool.now id }
{
    match print_formula(alloc, pool, id) {
        Ok(text) => format!(in alloc; "{} bytes", text.len()),
        Err(PrintFault::TextLimit) => String::from_str(alloc, "text limit"),
        Err(PrintFault::Memory) => Err(AllocError),
    }
}
