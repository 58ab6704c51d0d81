use lw_formula::{Chars, Logic};
use lw_trans::Connective;

/// Why a script's run ends before it is carried out.
#[derive(Debug, PartialEq, Eq, Drop)]
pub enum Trouble {
    /// What a print statement would write is longer than 1,048,576 bytes, as values are measured.
    TextLimit,
    /// The formula to be decided has so many distinct subformulas, more than it may have.
    TooLarge { count: usize },
    /// In this logic no interpolants are read off proofs.
    NoInterpolants { logic: Logic },
    /// The variable has an occurrence under neither `box` nor `dia`.
    NotModalised,
    /// The formula has so many outermost modal subformulas with the variable, more than it may have.
    TooManyBoxes { count: usize },
    /// The formula has a connective that no intuitionistic formula has: the first of them in their order.
    NotIntuitionistic { what: Connective },
    /// The formula, which may have no variables, has some: the first in byte order.
    NotLetterless { name: Chars },
    /// The script variable has no value.
    Unbound { name: Chars },
    /// A value is of the wrong kind.
    Kind,
    /// A number is below 0 or above the greatest, there is no such item, or a list is too heavy.
    Range,
    /// The run has taken all its steps.
    StepLimit,
}
