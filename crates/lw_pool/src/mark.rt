ghost use Rattle.std.specs.Prelude.{ℕ};

use std::marker::Model;

/// A count of formulas to which a pool can be cut back, seen as the number.
#[derive(Clone, Copy, Debug)]
pub struct Mark {
    pub(crate) count: usize,
}

impl Model for Mark {
    ghost Value = { ℕ };

    ghost view = { λ mark. mark.count };

    ghost inverse = { λ n. record { count = n } };
}
