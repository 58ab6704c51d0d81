//! Families of formulas made from a number, and how many of them are valid in each logic.
#![tactic(auto)]

mod counts;
mod families;
mod formulas;
mod laws;
mod questions;

pub use counts::Summary;
pub use families::Family;
pub use formulas::family;
pub use laws::{loeb_is_exact, reflexive_is_exact, transitive_is_exact};
pub use questions::summary;
