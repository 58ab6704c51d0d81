ghost use Rattle.std.specs.Prelude.{◌≡◌};
ghost use Rattle.lw_interp.specs.Interpolant.{has_interpolants};

use lw_formula::Logic;

/// Whether interpolants are read off the proofs of the logic.
pub fn has_interpolants(logic: Logic) -> bool
    ensures { result ≡ has_interpolants logic }
{
    match logic {
        Logic::K | Logic::KT | Logic::S4 | Logic::GL => true,
        Logic::S5 | Logic::Grz | Logic::K4 | Logic::KD => false,
    }
}
