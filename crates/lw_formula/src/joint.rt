/// A connective between two formulas.
#[derive(Clone, Copy, Debug, PartialEq, Eq, Hash)]
pub enum Joint {
    And,
    Or,
    Imp,
    Iff,
}
