ghost use Rattle.std.specs.Prelude.{◌≡◌, ◌≤◌, IfOk};
ghost use Rattle.lw_pool.specs.Region.{tree_at, IsLive, IsAt, Grows};
ghost use Rattle.lw_gen.specs.Families as families;
ghost use Rattle.lw_gen.specs.Families.{family_formula, modality, under, digits, p};

use crate::families::Family;
use lw_formula::{Name, NameFault};
use lw_pool::{FormId, Node, Pool};
use std::alloc::{AllocError, Global};

/// The id of the family's formula for i, which is from 1 to 100. It is put into the pool, with what it is made of,
/// where it isn't there. It fails for want of memory alone. After either answer the pool has what it had, and perhaps
/// formulas above.
pub fn family(alloc: Global, pool: &mut Pool, which: Family, i: u64) -> Result<FormId, AllocError>
    requires least { 1 ≤ i }
    requires most { i ≤ 100 }
    ensures at { IfOk result (IsAt pool.new (family_formula which i)) }
    ensures grows { Grows pool.old pool.new }
{
    let p = variable(alloc, pool)?;
    match which {
        Family::Transitive => {
            let less = boxes(pool, p, i)?;
            let more = pool.make(Node::Nec(less))?;
            pool.make(Node::Imp(less, more))
        }
        Family::Reflexive => {
            let less = boxes(pool, p, i)?;
            let more = pool.make(Node::Nec(less))?;
            pool.make(Node::Imp(more, less))
        }
        Family::Loeb => {
            let less = boxes(pool, p, i)?;
            let more = pool.make(Node::Nec(less))?;
            let step = pool.make(Node::Imp(more, less))?;
            let given = pool.make(Node::Nec(step))?;
            pool.make(Node::Imp(given, more))
        }
        Family::Coded => {
            let forwards = word(pool, p, i)?;
            let backwards = backward_word(pool, p, i)?;
            pool.make(Node::Imp(forwards, backwards))
        }
    }
}

/// The id of the variable p.
fn variable(alloc: Global, pool: &mut Pool) -> Result<FormId, AllocError>
    ensures at { IfOk result (IsAt pool.new p) }
    ensures grows { Grows pool.old pool.new }
{
    match Name::from_bytes(alloc, b"p") {
        Ok(name) => pool.make(Node::Var(name)),
        Err(NameFault::Memory) => Err(AllocError),
        Err(NameFault::BadName) => unreachable!(),
    }
}

/// The formula under so many boxes.
fn boxes(pool: &mut Pool, form: FormId, count: u64) -> Result<FormId, AllocError>
    requires { IsLive pool.old form }
    ensures at { IfOk result (IsAt pool.new (families.boxes count (tree_at pool.old form))) }
    ensures grows { Grows pool.old pool.new }
{
    if count == 0 {
        return Ok(form);
    }
    let inner = boxes(pool, form, count - 1)?;
    pool.make(Node::Nec(inner))
}

/// The formula under the modality of a digit: `dia` for 1, `box` for 0.
fn modal(pool: &mut Pool, is_one: bool, form: FormId) -> Result<FormId, AllocError>
    requires { IsLive pool.old form }
    ensures at { IfOk result (IsAt pool.new (modality is_one (tree_at pool.old form))) }
    ensures grows { Grows pool.old pool.new }
{
    if is_one {
        pool.make(Node::Poss(form))
    } else {
        pool.make(Node::Nec(form))
    }
}

/// The formula under the number's binary digits after the leading 1, the highest outermost.
fn word(pool: &mut Pool, form: FormId, number: u64) -> Result<FormId, AllocError>
    requires { IsLive pool.old form }
    ensures at { IfOk result (IsAt pool.new (under (families.word number) (tree_at pool.old form))) }
    ensures grows { Grows pool.old pool.new }
{
    if number < 2 {
        return Ok(form);
    }
    let inner = modal(pool, number % 2 == 1, form)?;
    word(pool, inner, number / 2)
}

/// The formula under the same digits, the lowest outermost.
fn backward_word(pool: &mut Pool, form: FormId, number: u64) -> Result<FormId, AllocError>
    requires { IsLive pool.old form }
    ensures at { IfOk result (IsAt pool.new (under (digits number) (tree_at pool.old form))) }
    ensures grows { Grows pool.old pool.new }
{
    if number < 2 {
        return Ok(form);
    }
    let inner = backward_word(pool, form, number / 2)?;
    modal(pool, number % 2 == 1, inner)
}
