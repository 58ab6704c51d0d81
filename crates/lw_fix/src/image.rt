ghost use Rattle.std.specs.Prelude.{◌≡◌, IfOk};
ghost use Rattle.lw_pool.specs.Region.{tree_at, IsLive, IsAt, Grows};
ghost use Rattle.lw_fix.specs.Outermost.{at_outermost};
ghost use Rattle.lw_fix.specs.Private.Images.{AreImagesLive, image_at, image_in, AreImagesLive-grows, IsAt-images};

use lw_pool::{FormId, Node, Pool, Step, fold};
use std::alloc::{AllocError, Global};

/// The id of a formula, and that of what stands in its place.
#[derive(Clone, Copy)]
pub struct Image {
    pub of: FormId,
    pub by: FormId,
}

/// The first image of the formula, if it has one.
pub fn find(images: &[Image], at: FormId) -> Option<FormId>
    ensures { result ≡ image_at images.now at }
{
    for image in images {
        if image.of.0 == at.0 {
            return Some(image.by);
        }
    }
    None
}

/// The id of the formula with their images for the outermost modal subformulas that have one.
pub fn put(
    alloc: Global,
    pool: &mut Pool,
    id: FormId,
    images: &[Image],
) -> Result<FormId, AllocError>
    requires id { IsLive pool.old id }
    requires images { AreImagesLive pool.old images.now }
    ensures at { IfOk result (IsAt pool.new (at_outermost (image_in pool.new images.now) (tree_at pool.old id))) }
    ensures grows { Grows pool.old pool.new }
{
    fold(alloc, pool, id, &Images { images })
}

/// The walk that puts images.
#[derive(Drop)]
struct Images<'a> {
    images: &'a [Image],
}

impl<'a> Step<Pool> for Images<'a> {
    type Out = FormId;

    ghost is_right = { λ by ts a. IsAt ts (at_outermost (image_in ts by.images.now) a) };

    ghost suits = { λ by ts. AreImagesLive ts by.images.now };

    ghost suits_on = { λ by old new grows live. AreImagesLive-grows old new by.images.now grows live };

    ghost lasts = { λ by old new a id grows live at. IsAt-images old new by.images.now a id grows live at };

    fn blank(&self) -> FormId {
        FormId(0)
    }

    fn step(&self, pool: &mut Pool, at: FormId, done: &[FormId]) -> Result<FormId, AllocError> {
        match pool.node(at) {
            Node::Var(_) | Node::Bot | Node::Top => Ok(at),
            Node::Not(a) => {
                let a = done[a.0];
                pool.make(Node::Not(a))
            }
            Node::And(a, b) => {
                let (a, b) = (done[a.0], done[b.0]);
                pool.make(Node::And(a, b))
            }
            Node::Or(a, b) => {
                let (a, b) = (done[a.0], done[b.0]);
                pool.make(Node::Or(a, b))
            }
            Node::Imp(a, b) => {
                let (a, b) = (done[a.0], done[b.0]);
                pool.make(Node::Imp(a, b))
            }
            Node::Iff(a, b) => {
                let (a, b) = (done[a.0], done[b.0]);
                pool.make(Node::Iff(a, b))
            }
            Node::Nec(_) | Node::Poss(_) => Ok(replaced(pool, self.images, at)),
        }
    }
}

/// The formula's image, or itself where it has none.
fn replaced(pool: &Pool, images: &[Image], at: FormId) -> FormId
    requires at { IsLive pool.now at }
    requires images { AreImagesLive pool.now images.now }
    ensures { IsAt pool.now (image_in pool.now images.now (tree_at pool.now at)) result }
{
    let _ = pool.count();
    match find(images, at) {
        Some(by) => by,
        None => at,
    }
}
