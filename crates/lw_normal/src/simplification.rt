ghost use Rattle.std.specs.Prelude.{◌≡◌, IfOk, IsTrue, ⊤};
ghost use Rattle.lw_formula.specs.Formula.{falsum, neg, same_formula, verum};
ghost use Rattle.lw_pool.specs.Region.{tree_at, IsLive, IsAt, Grows};
ghost use Rattle.lw_pool.proofs.RegionGrowth.{IsAt-grows};
ghost use Rattle.lw_normal.specs.Simplification as simplified;

use lw_pool::{FormId, Node, Pool, Step, fold};
use std::alloc::{AllocError, Global};

/// The id of the simplified formula, from the inside out: `~`, `&`, `v`, `->` or `<->` gives way where an operand is a
/// constant, `~` also before another `~`, `box` before `true` and `dia` before `false`, the four between two operands also
/// where both are one formula, and `&` and `v` where one operand is `~` of the other. The simplified formula is true at
/// the same worlds of every model, and has no more nodes. It fails for want of memory alone. After either answer the
/// pool has what it had, and perhaps formulas above.
pub fn simplify(alloc: Global, pool: &mut Pool, id: FormId) -> Result<FormId, AllocError>
    requires { IsLive pool.old id }
    ensures at { IfOk result (IsAt pool.new (simplified.simplify (tree_at pool.old id))) }
    ensures grows { Grows pool.old pool.new }
{
    fold(alloc, pool, id, &Simplification)
}

/// The walk that simplifies.
#[derive(Drop)]
struct Simplification;

impl Step<Pool> for Simplification {
    type Out = FormId;

    ghost is_right = { λ _ ts a. IsAt ts (simplified.simplify a) };

    ghost suits = { λ _ _. ⊤ };

    ghost suits_on = { λ _ _ _ _ suits. suits };

    ghost lasts = { λ _ old new a id grows _ at. IsAt-grows old new (simplified.simplify a) id grows at };

    fn blank(&self) -> FormId {
        FormId(0)
    }

    fn step(&self, pool: &mut Pool, at: FormId, done: &[FormId]) -> Result<FormId, AllocError> {
        match pool.node(at) {
            Node::Var(_) | Node::Bot | Node::Top => Ok(at),
            Node::Not(a) => {
                let a = done[a.0];
                not_of(pool, a)
            }
            Node::And(a, b) => {
                let (a, b) = (done[a.0], done[b.0]);
                and_of(pool, a, b)
            }
            Node::Or(a, b) => {
                let (a, b) = (done[a.0], done[b.0]);
                or_of(pool, a, b)
            }
            Node::Imp(a, b) => {
                let (a, b) = (done[a.0], done[b.0]);
                imp_of(pool, a, b)
            }
            Node::Iff(a, b) => {
                let (a, b) = (done[a.0], done[b.0]);
                iff_of(pool, a, b)
            }
            Node::Nec(a) => {
                let a = done[a.0];
                box_of(pool, a)
            }
            Node::Poss(a) => {
                let a = done[a.0];
                dia_of(pool, a)
            }
        }
    }
}

/// Whether the formula is `false`.
fn is_bot(pool: &Pool, id: FormId) -> bool
    requires { IsLive pool.now id }
    ensures { result ≡ same_formula (tree_at pool.now id) falsum }
{
    matches!(pool.node(id), Node::Bot)
}

/// Whether the formula is `true`.
fn is_top(pool: &Pool, id: FormId) -> bool
    requires { IsLive pool.now id }
    ensures { result ≡ same_formula (tree_at pool.now id) verum }
{
    matches!(pool.node(id), Node::Top)
}

/// Whether the two formulas are one.
fn is_same(pool: &Pool, x: FormId, y: FormId) -> bool
    requires x { IsLive pool.now x }
    requires y { IsLive pool.now y }
    ensures { result ≡ same_formula (tree_at pool.now x) (tree_at pool.now y) }
{
    // a pool that counts its formulas tells that ids that differ have formulas that differ
    let _ = pool.count();
    x == y
}

/// Whether the first formula is `~` of the second.
fn is_negation(pool: &Pool, x: FormId, y: FormId) -> bool
    requires x { IsLive pool.now x }
    requires y { IsLive pool.now y }
    ensures { result ≡ same_formula (tree_at pool.now x) (neg (tree_at pool.now y)) }
{
    if let Node::Not(inner) = pool.node(x) {
        is_same(pool, *inner, y)
    } else {
        false
    }
}

/// `~X`
fn not_of(pool: &mut Pool, x: FormId) -> Result<FormId, AllocError>
    requires { IsLive pool.old x }
    ensures at { IfOk result (IsAt pool.new (simplified.not_of (tree_at pool.old x))) }
    ensures grows { Grows pool.old pool.new }
{
    match pool.node(x) {
        Node::Not(inner) => Ok(*inner),
        Node::Top => pool.make(Node::Bot),
        Node::Bot => pool.make(Node::Top),
        Node::Var(_)
        | Node::And(_, _)
        | Node::Or(_, _)
        | Node::Imp(_, _)
        | Node::Iff(_, _)
        | Node::Nec(_)
        | Node::Poss(_) => pool.make(Node::Not(x)),
    }
}

/// `X & Y`
fn and_of(pool: &mut Pool, x: FormId, y: FormId) -> Result<FormId, AllocError>
    requires x { IsLive pool.old x }
    requires y { IsLive pool.old y }
    ensures at { IfOk result (IsAt pool.new (simplified.and_of (tree_at pool.old x) (tree_at pool.old y))) }
    ensures grows { Grows pool.old pool.new }
{
    if is_bot(pool, x) || is_bot(pool, y) {
        return pool.make(Node::Bot);
    }
    if is_top(pool, x) {
        return Ok(y);
    }
    if is_top(pool, y) || is_same(pool, x, y) {
        return Ok(x);
    }
    if is_negation(pool, x, y) || is_negation(pool, y, x) {
        return pool.make(Node::Bot);
    }
    pool.make(Node::And(x, y))
}

/// `X v Y`
fn or_of(pool: &mut Pool, x: FormId, y: FormId) -> Result<FormId, AllocError>
    requires x { IsLive pool.old x }
    requires y { IsLive pool.old y }
    ensures at { IfOk result (IsAt pool.new (simplified.or_of (tree_at pool.old x) (tree_at pool.old y))) }
    ensures grows { Grows pool.old pool.new }
{
    if is_top(pool, x) || is_top(pool, y) {
        return pool.make(Node::Top);
    }
    if is_bot(pool, x) {
        return Ok(y);
    }
    if is_bot(pool, y) || is_same(pool, x, y) {
        return Ok(x);
    }
    if is_negation(pool, x, y) || is_negation(pool, y, x) {
        return pool.make(Node::Top);
    }
    pool.make(Node::Or(x, y))
}

/// `X -> Y`
fn imp_of(pool: &mut Pool, x: FormId, y: FormId) -> Result<FormId, AllocError>
    requires x { IsLive pool.old x }
    requires y { IsLive pool.old y }
    ensures at { IfOk result (IsAt pool.new (simplified.imp_of (tree_at pool.old x) (tree_at pool.old y))) }
    ensures grows { Grows pool.old pool.new }
{
    if is_bot(pool, x) || is_top(pool, y) || is_same(pool, x, y) {
        return pool.make(Node::Top);
    }
    if is_top(pool, x) {
        return Ok(y);
    }
    if is_bot(pool, y) {
        return not_of(pool, x);
    }
    pool.make(Node::Imp(x, y))
}

/// `X <-> Y`
fn iff_of(pool: &mut Pool, x: FormId, y: FormId) -> Result<FormId, AllocError>
    requires x { IsLive pool.old x }
    requires y { IsLive pool.old y }
    ensures at { IfOk result (IsAt pool.new (simplified.iff_of (tree_at pool.old x) (tree_at pool.old y))) }
    ensures grows { Grows pool.old pool.new }
{
    if is_same(pool, x, y) {
        return pool.make(Node::Top);
    }
    if is_top(pool, x) {
        return Ok(y);
    }
    if is_top(pool, y) {
        return Ok(x);
    }
    if is_bot(pool, x) {
        return not_of(pool, y);
    }
    if is_bot(pool, y) {
        return not_of(pool, x);
    }
    pool.make(Node::Iff(x, y))
}

/// `box X`
fn box_of(pool: &mut Pool, x: FormId) -> Result<FormId, AllocError>
    requires { IsLive pool.old x }
    ensures at { IfOk result (IsAt pool.new (simplified.box_of (tree_at pool.old x))) }
    ensures grows { Grows pool.old pool.new }
{
    if is_top(pool, x) {
        return pool.make(Node::Top);
    }
    pool.make(Node::Nec(x))
}

/// `dia X`
fn dia_of(pool: &mut Pool, x: FormId) -> Result<FormId, AllocError>
    requires { IsLive pool.old x }
    ensures at { IfOk result (IsAt pool.new (simplified.dia_of (tree_at pool.old x))) }
    ensures grows { Grows pool.old pool.new }
{
    if is_bot(pool, x) {
        return pool.make(Node::Bot);
    }
    pool.make(Node::Poss(x))
}
