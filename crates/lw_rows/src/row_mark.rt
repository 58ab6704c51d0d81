ghost use Rattle.std.specs.Prelude.{ℕ};

use std::marker::Model;

/// A count of rows to which a stack can be cut back, seen as the number.
#[derive(Clone, Copy)]
pub struct RowMark {
    pub(crate) count: usize,
}

impl Model for RowMark {
    ghost Value = { ℕ };

    ghost view = { λ mark. mark.count };

    ghost inverse = { λ n. record { count = n } };
}
