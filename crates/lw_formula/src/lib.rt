//! Words and trees: names, logics, signs and formulas, with the definitions of truth, class, validity, refutation,
//! signed sets and components that every contract of the workbench cites.
#![tactic(auto)]

mod chars;
mod form;
mod joint;
mod laws;
mod logic;
mod name;
mod parts;
mod sign;

pub use chars::Chars;
pub use form::{Form, add_name};
pub use joint::Joint;
pub use laws::{
    no_logic_is_empty, substitution_keeps_validity, truth_depends_on_variables, truths_agree,
};
pub use logic::Logic;
pub use name::{Name, NameFault};
pub use parts::Parts;
pub use sign::Sign;
