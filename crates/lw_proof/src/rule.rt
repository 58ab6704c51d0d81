ghost use Rattle.std.specs.Prelude.{◌≡◌};

/// A rule of the calculus, which a step of a proof names.
#[derive(Clone, Copy, Debug, PartialEq, Eq, Hash)]
pub enum Rule {
    /// A formula stands under both signs: there are no premises.
    Close,
    /// `T false` or `F true`: there are no premises.
    Absurd,
    /// All components of the principal are added.
    One,
    /// In the first premise one side of the principal is added, in the second the other.
    Two,
    /// The component of a ν is added.
    Refl,
    /// A world that the present one sees: the component of a π, and what the logic keeps.
    Step,
    /// A world that the present one sees whatever it is: what the logic keeps alone.
    Serial,
    /// In the first premise a formula is added under T, in the second under F.
    Cut,
}

impl Rule {
    ghost use Rattle.lw_proof.specs.Break.{arity};

    /// How many premises the rule has: so many subproofs has a step that keeps it.
    pub fn arity(self) -> usize
        ensures { result ≡ arity self }
    {
        match self {
            Rule::Close | Rule::Absurd => 0,
            Rule::One | Rule::Refl | Rule::Step | Rule::Serial => 1,
            Rule::Two | Rule::Cut => 2,
        }
    }
}
