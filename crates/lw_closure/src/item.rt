ghost use Rattle.std.specs.Prelude.{◌≡◌, ◌/◌, ◌<◌};
ghost use Rattle.lw_closure.specs.Table.{flip_item, most_forms, sign_of};

use lw_formula::Sign;

/// The number of a formula's item under the sign.
pub(crate) fn item_number(form: usize, sign: Sign) -> usize
    requires { form < most_forms }
    ensures sign { sign_of result ≡ sign }
    ensures form { result / 2 ≡ form }
{
    match sign {
        Sign::T => 2 * form,
        Sign::F => 2 * form + 1,
    }
}

/// The item of the same formula under the other sign.
pub fn flip(item: usize) -> usize
    requires { item < usize.MAX }
    ensures { result ≡ flip_item item }
{
    if item % 2 == 0 { item + 1 } else { item - 1 }
}
