ghost use Rattle.std.specs.Prelude.{◌≡◌, ℕ, ◌<◌, ◌^◌, IfOk, IsTrue};
ghost use Rattle.std.specs.declared.cmp.Ordering.TheVariants.{Equal};
ghost use Rattle.std.proofs.lemmas.Map.Lookups.{exact_unsigned, exact_bytes};
ghost use Rattle.lw_formula.specs.Name.{is_name};

use lw_formula::Name;
use std::alloc::AllocError;
use std::fmt::Debug;

/// What ordered lists are made of: values that are one where they compare as equal.
pub(crate) trait Item: Ord + Debug + Drop {
    ghost is_valid: { Self → Type 0 };

    /// A second value that is equal to this one. It fails for want of memory alone.
    fn copied(&self) -> Result<Self, AllocError>
        ensures same { IfOk result (λ copy. copy ≡ self.now) }
        ensures valid { IfOk result is_valid };

    ghost exact: { (x y : Self) → Self.cmp x y ≡ Equal → x ≡ y };
}

impl Item for usize {
    ghost is_valid = { λ number. number < 2 ^ 64 };

    ghost exact = { exact_unsigned };

    fn copied(&self) -> Result<usize, AllocError> {
        Ok(*self)
    }
}

impl Item for Name {
    ghost is_valid = { λ name. IsTrue (is_name name) };

    ghost exact = { exact_bytes };

    fn copied(&self) -> Result<Name, AllocError> {
        let copy = self.try_clone()?;
        let _bytes = copy.as_bytes();
        Ok(copy)
    }
}
