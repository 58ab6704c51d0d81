//! Finite Kripke models, the classes of the eight logics, and truth of a pool's formulas at their worlds.
#![tactic(auto)]

mod class;
mod item;
mod model;
mod ordered_list;
mod ordered_rows;
mod row;
mod truth;

pub use class::in_class;
pub use model::Model;
pub use truth::holds;
