ghost use Rattle.std.specs.Prelude.{◌≡◌, ◌+◌, ◌<◌, ◌≤◌, length, All, IfOk, IfErr, OnOk};
ghost use Rattle.lw_pool.specs.Region.{tree_at, IsLive, IsAt, Grows};
ghost use Rattle.lw_trace.specs.LetterlessForm as normal;
ghost use Rattle.lw_trace.specs.TraceFaults.{IsWithinLimit, IsFaultOf};
ghost use Rattle.lw_trace.specs.Private.FormIds.{AreBelow};

use crate::fault::TraceFault;
use crate::tracing::trace;
use crate::truth_by_height::Trace;
use lw_pool::{FormId, Node, Pool};
use std::alloc::{AllocError, Global};

/// The id of the formula's normal form in GL: where its trace is no at all but some heights, the formulas of these
/// heights joined by `v`, grouped to the right, or `false` where there are none; and where it is yes at all but some,
/// `~` of that, or `true`. The formula of height 0 is `box false`, and that of n is `box^(n+1) false & ~box^n false`
/// (Boolos, The Logic of Provability, chapter 7). A formula without variables is equivalent to its normal form in GL,
/// and two have the same one exactly where they are equivalent.
///
/// The faults are those of `trace`. After each answer the pool has what it had, and perhaps formulas above.
///
/// The work is that of the trace, and a formula or three for each height up to the greatest exception.
pub fn letterless(alloc: Global, pool: &mut Pool, id: FormId) -> Result<FormId, TraceFault>
    requires { IsLive pool.old id }
    ensures at { IfOk result (IsAt pool.new (normal.letterless_of (tree_at pool.old id))) }
    ensures allowed { OnOk result (IsWithinLimit (tree_at pool.old id)) }
    ensures refused { IfErr result (IsFaultOf (tree_at pool.old id)) }
    ensures grows { Grows pool.old pool.new }
{
    let trace = trace(alloc, pool, id)?;
    Ok(form_of(alloc, pool, &trace)?)
}

/// The formula that has these truth values.
fn form_of(alloc: Global, pool: &mut Pool, trace: &Trace) -> Result<FormId, AllocError>
    ensures at { IfOk result (IsAt pool.new (normal.form_of trace.now)) }
    ensures grows { Grows pool.old pool.new }
{
    let heights = trace.heights();
    let Some(greatest) = heights.iter().copied().max() else {
        return pool.make(if trace.rest() { Node::Top } else { Node::Bot });
    };
    let below = below_each(alloc, pool, greatest)?;
    let among = is_among(pool, &below, heights)?;
    if trace.rest() {
        pool.make(Node::Not(among))
    } else {
        Ok(among)
    }
}

/// The ids of `box^n false`, each at place n, for each n up to one more than the greatest height.
fn below_each(alloc: Global, pool: &mut Pool, greatest: usize) -> Result<Vec<FormId>, AllocError>
    ensures below { IfOk result (λ below. AreBelow pool.new below.items) }
    ensures long { IfOk result (λ below. length below.items ≡ greatest + 2) }
    ensures grows { Grows pool.old pool.new }
{
    let mut below = Vec::new(alloc);
    let falsum = pool.make(Node::Bot)?;
    below.push(falsum)?;
    for at in 0..=greatest {
        let boxed = pool.make(Node::Nec(below[at]))?;
        below.push(boxed)?;
    }
    Ok(below)
}

/// The formula that is true at these heights alone.
fn is_among(pool: &mut Pool, below: &[FormId], heights: &[usize]) -> Result<FormId, AllocError>
    requires below { AreBelow pool.old below.now }
    requires within { All (λ n. n + 1 < length below.now) heights.now }
    ensures at { IfOk result (IsAt pool.new (normal.is_among heights.now)) }
    ensures grows { Grows pool.old pool.new }
{
    match heights {
        [] => pool.make(Node::Bot),
        [height] => is_height(pool, below, *height),
        [height, others @ ..] => {
            let own = is_height(pool, below, *height)?;
            let rest = is_among(pool, below, others)?;
            pool.make(Node::Or(own, rest))
        }
    }
}

/// The formula that is true at this height alone.
fn is_height(pool: &mut Pool, below: &[FormId], height: usize) -> Result<FormId, AllocError>
    requires below { AreBelow pool.old below.now }
    requires within { height + 1 < length below.now }
    ensures at { IfOk result (IsAt pool.new (normal.is_height height)) }
    ensures grows { Grows pool.old pool.new }
{
    if height == 0 {
        return Ok(below[1]);
    }
    let higher = pool.make(Node::Not(below[height]))?;
    pool.make(Node::And(below[height + 1], higher))
}
