ghost use Rattle.std.specs.Prelude.{◌≡◌, ◌<◌, ◌∷◌, [], ◌++◌, length, map, remove, All, IfOk, OnOk};
ghost use Rattle.lw_pool.specs.Region.{tree_at, IsLive, IsAt, Grows};
ghost use Rattle.lw_fix.specs.Outermost.{at_outermost};
ghost use Rattle.lw_fix.specs.FixedPoint as construction;
ghost use Rattle.lw_fix.specs.Private.Images.{image_in, IsImage};
ghost use Rattle.lw_fix.specs.Private.OutermostIds.{AreOutermost};
ghost use Rattle.lw_fix.specs.Private.Solved.{AreBoxes, AreSolved};

use crate::image::{Image, put};
use indexmap::IndexMap;
use lw_formula::Name;
use lw_pool::{FormId, Node, Pool};
use std::alloc::{AllocError, Global};

/// The id of the formula's fixed point for the variable, where the boxes are its outermost modal subformulas with it.
pub fn construct(
    alloc: Global,
    pool: &mut Pool,
    name: &Name,
    id: FormId,
    boxes: &[FormId],
) -> Result<FormId, AllocError>
    requires id { IsLive pool.old id }
    requires boxes { AreOutermost pool.old name.now (tree_at pool.old id) boxes.now }
    ensures at { IfOk result (IsAt pool.new (construction.fix name.now (tree_at pool.old id))) }
    ensures grows { Grows pool.old pool.new }
{
    let left = defaults(alloc, pool, boxes)?;
    let mut solved = IndexMap::new(alloc);
    solve(alloc, pool, &mut solved, name, id, &[], &left)
}

/// The boxes, each with the id of its default.
fn defaults(alloc: Global, pool: &mut Pool, boxes: &[FormId]) -> Result<Vec<Image>, AllocError>
    requires { All (IsLive pool.old) boxes.now }
    ensures right { IfOk result (λ images. All (IsImage construction.default_of pool.new) images.items) }
    ensures of { IfOk result (λ images. map (λ i. i.of) images.items ≡ boxes.now) }
    ensures grows { Grows pool.old pool.new }
{
    let mut images = Vec::with_capacity(alloc, boxes.len())?;
    for at in 0..boxes.len() {
        let of = boxes[at];
        let by = default_of(pool, of)?;
        images.push(Image { of, by })?;
    }
    Ok(images)
}

/// The id of the fixed point of the formula with their defaults for the boxes that are taken, where those that are left
/// are all others with the variable. Fixed points are kept by the ids of their formulas, so that each is found once.
///
/// Every walk is over the formula or one of its boxes. None is over a formula that was made on the way: its id is great,
/// and so its table is long.
fn solve(
    alloc: Global,
    pool: &mut Pool,
    solved: &mut IndexMap<FormId, FormId>,
    name: &Name,
    id: FormId,
    taken: &[Image],
    left: &[Image],
) -> Result<FormId, AllocError>
    requires id { IsLive pool.old id }
    requires boxes { AreBoxes pool.old name.now (tree_at pool.old id) (taken.now ++ left.now) }
    requires solved { AreSolved pool.old name.now solved.old.entries }
    ensures at { IfOk result (IsAt pool.new
        (construction.fix name.now (at_outermost (image_in pool.old taken.now) (tree_at pool.old id)))) }
    ensures solved { OnOk result (AreSolved pool.new name.now solved.new.entries) }
    ensures grows { Grows pool.old pool.new }
{
    let rest = put(alloc, pool, id, taken)?;
    if let Some(point) = solved.get(&rest) {
        return Ok(*point);
    }
    let mut images = Vec::from_slice(alloc, taken)?;
    for at in 0..left.len() {
        let one = left[at];
        let more = with_image(alloc, taken, one)?;
        let fewer = without_image(alloc, left, at)?;
        let point = solve(alloc, pool, solved, name, id, &more, &fewer)?;
        let by = pool.substitute(one.of, name, point)?;
        images.push(Image { of: one.of, by })?;
    }
    let point = put(alloc, pool, id, &images)?;
    solved.insert(rest, point)?;
    Ok(point)
}

/// The images with one more behind them.
fn with_image(alloc: Global, images: &[Image], one: Image) -> Result<Vec<Image>, AllocError>
    ensures { IfOk result (λ more. more.items ≡ images.now ++ one ∷ []) }
{
    let mut more = Vec::from_slice(alloc, images)?;
    more.push(one)?;
    Ok(more)
}

/// The images without the one at this place.
fn without_image(alloc: Global, images: &[Image], at: usize) -> Result<Vec<Image>, AllocError>
    requires { at < length images.now }
    ensures { IfOk result (λ fewer. fewer.items ≡ remove images.now at) }
{
    let mut fewer = Vec::from_slice(alloc, images)?;
    fewer.remove(at);
    Ok(fewer)
}

/// The id of what the modal formula is taken to be at first: `true` for a box, `false` for a dia.
fn default_of(pool: &mut Pool, id: FormId) -> Result<FormId, AllocError>
    requires { IsLive pool.old id }
    ensures at { IfOk result (IsAt pool.new (construction.default_of (tree_at pool.old id))) }
    ensures grows { Grows pool.old pool.new }
{
    match pool.node(id) {
        Node::Nec(_) => pool.make(Node::Top),
        Node::Poss(_) => pool.make(Node::Bot),
        Node::Var(_) | Node::Bot | Node::Top | Node::Not(_) => Ok(id),
        Node::And(_, _) | Node::Or(_, _) | Node::Imp(_, _) | Node::Iff(_, _) => Ok(id),
    }
}
