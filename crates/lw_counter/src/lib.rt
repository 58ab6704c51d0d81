//! From an open fragment to a countermodel, for all eight logics.
#![tactic(auto)]

mod answer;
mod close;
mod fragment;
mod laws;
mod relation;

pub use answer::Answer;
pub use fragment::Fragment;
pub use laws::{
    open_fragments_are_models, open_items_are_open_formulas, open_items_make_countermodels,
};
