ghost use Rattle.std.specs.Prelude.{◌≡◌, [], ◌∷◌, IfOk, OnOk};
ghost use Rattle.lw_pool.specs.Region.{IsLive, signed_at};
ghost use Rattle.lw_formula.specs.declared.sign.Sign.TheVariants as sign;
ghost use Rattle.lw_proof.specs.Derivation.{side};
ghost use Rattle.lw_interp.specs.Private.SideLists.{sides_at, place_of, is_left, counts_of, cut_to, AreSidesLive, AreSidesKept, IsPut};

use lw_formula::{Logic, Sign};
use lw_pool::{FormId, Pool, SignedId};
use lw_proof::SignedIds;
use lw_sets::{add_side, has, kept_items};
use std::alloc::{AllocError, Global};

/// On which side a signed formula stands: on the left where it is on both.
#[derive(Clone, Copy)]
pub(crate) enum Place {
    Left,
    Right,
    Neither,
}

impl Place {
    /// Whether it is the left side.
    pub(crate) fn is_left(self) -> bool
        ensures { result ≡ is_left self }
    {
        match self {
            Place::Left => true,
            Place::Right | Place::Neither => false,
        }
    }
}

/// How many items each side has.
#[derive(Clone, Copy)]
pub(crate) struct Counts {
    left: usize,
    right: usize,
}

/// A set in two parts: what comes of `A`, and what comes of `B`, where `A -> B` is proved.
#[derive(Drop)]
pub(crate) struct SideIds {
    left: SignedIds,
    right: SignedIds,
}

impl SideIds {
    /// `T A` on the left and `F B` on the right.
    pub(crate) fn new(alloc: Global, left: FormId, right: FormId) -> Result<SideIds, AllocError>
        ensures left { IfOk result (λ sides. sides.left ≡ record { sign = sign.T; form = left } ∷ []) }
        ensures right { IfOk result (λ sides. sides.right ≡ record { sign = sign.F; form = right } ∷ []) }
    {
        Ok(SideIds {
            left: only(alloc, Sign::T, left)?,
            right: only(alloc, Sign::F, right)?,
        })
    }

    /// On which side the item stands.
    pub(crate) fn place(&self, pool: &Pool, item: SignedId) -> Place
        requires sides { AreSidesLive pool.now self.now }
        requires item { IsLive pool.now item.form }
        ensures { result ≡ place_of (sides_at pool.now self.now) (signed_at pool.now item) }
    {
        if has(pool, &self.left, item) {
            Place::Left
        } else if has(pool, &self.right, item) {
            Place::Right
        } else {
            Place::Neither
        }
    }

    /// How many items each side has.
    pub(crate) fn counts(&self) -> Counts
        ensures { result ≡ counts_of self.now }
    {
        Counts {
            left: self.left.count(),
            right: self.right.count(),
        }
    }

    /// Adds the components to the side.
    pub(crate) fn put(
        &mut self,
        place: Place,
        added: (SignedId, Option<SignedId>),
    ) -> Result<(), AllocError>
        ensures { OnOk result (IsPut place (side added.0 added.1) self.old self.new) }
    {
        match place {
            Place::Left => add_side(&mut self.left, added),
            Place::Right => add_side(&mut self.right, added),
            Place::Neither => Ok(()),
        }
    }

    /// Cuts each side back to so many items.
    pub(crate) fn cut(&mut self, counts: Counts)
        ensures { self.new ≡ cut_to counts self.old }
    {
        self.left.cut(counts.left);
        self.right.cut(counts.right);
    }

    /// What a step to another world keeps of each side.
    pub(crate) fn kept(&self, pool: &Pool, logic: Logic) -> Result<SideIds, AllocError>
        requires { AreSidesLive pool.now self.now }
        ensures kept { IfOk result (AreSidesKept logic pool.now self.now) }
        ensures live { IfOk result (AreSidesLive pool.now) }
    {
        Ok(SideIds {
            left: kept_items(pool, logic, &self.left)?,
            right: kept_items(pool, logic, &self.right)?,
        })
    }
}

/// The set of one signed formula.
fn only(alloc: Global, sign: Sign, form: FormId) -> Result<SignedIds, AllocError>
    ensures { IfOk result (λ items. items ≡ record { sign = sign; form = form } ∷ []) }
{
    let mut items = SignedIds::new(alloc);
    items.add(SignedId { sign, form })?;
    Ok(items)
}
