ghost use Rattle.std.specs.Prelude.{◌≡◌};
ghost use Rattle.lw_formula.specs.Signs.{opposite};

use lw_formula::Sign;

/// The id of a formula in a pool: its place in the pool's list, from 0.
#[derive(Clone, Copy, Debug, PartialEq, Eq, Hash)]
pub struct FormId(pub usize);

/// A signed formula of a pool.
#[derive(Clone, Copy, Debug, PartialEq, Eq, Hash)]
pub struct SignedId {
    pub sign: Sign,
    pub form: FormId,
}

impl SignedId {
    /// The same formula under the other sign.
    pub fn flip(self) -> SignedId
        ensures { result ≡ record { sign = opposite self.sign; form = self.form } }
    {
        SignedId {
            sign: self.sign.flip(),
            form: self.form,
        }
    }
}
