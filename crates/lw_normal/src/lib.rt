//! Negation normal form and simplification: formulas that are true at the same worlds of every model.
#![tactic(auto)]

mod laws;
mod normal_form;
mod simplification;

pub use laws::{
    nnf_is_nnf, nnf_keeps_truth, nnf_stays_small, simplify_adds_no_nodes, simplify_keeps_truth,
};
pub use normal_form::nnf;
pub use simplification::simplify;
