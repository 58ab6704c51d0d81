ghost use Rattle.std.specs.Prelude.{◌≡◌};
ghost use Rattle.lw_proof.specs.Derivation.{has_refl, has_cut, has_serial};

use lw_formula::Logic;

/// Whether Refl is a rule of the logic: its worlds see themselves.
pub fn has_refl(logic: Logic) -> bool
    ensures { result ≡ has_refl logic }
{
    match logic {
        Logic::K | Logic::GL | Logic::K4 | Logic::KD => false,
        Logic::KT | Logic::S4 | Logic::S5 | Logic::Grz => true,
    }
}

/// Whether Cut is a rule of the logic.
pub fn has_cut(logic: Logic) -> bool
    ensures { result ≡ has_cut logic }
{
    match logic {
        Logic::S5 => true,
        Logic::K | Logic::KT | Logic::S4 | Logic::GL | Logic::Grz | Logic::K4 | Logic::KD => false,
    }
}

/// Whether Serial is a rule of the logic: each of its worlds sees one.
pub fn has_serial(logic: Logic) -> bool
    ensures { result ≡ has_serial logic }
{
    match logic {
        Logic::KD => true,
        Logic::K | Logic::KT | Logic::S4 | Logic::S5 | Logic::GL | Logic::Grz | Logic::K4 => false,
    }
}
