ghost use Rattle.std.specs.Prelude.{◌≡◌};
ghost use Rattle.lw_formula.specs.Signs.{opposite};

/// The sign of a signed formula: `T` claims that the formula is true, `F` that it is false.
#[derive(Clone, Copy, Debug, PartialEq, Eq, Hash)]
pub enum Sign {
    T,
    F,
}

impl Sign {
    /// The other sign.
    pub fn flip(self) -> Sign
        ensures { result ≡ opposite self }
    {
        match self {
            Sign::T => Sign::F,
            Sign::F => Sign::T,
        }
    }
}
