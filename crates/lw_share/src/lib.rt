//! Proofs that share subproofs: tables of closed sets, in which a line cites earlier lines in place of subproofs.
#![tactic(auto)]

mod check;
mod key;
mod laws;
mod premise;
mod sets;
mod sharing;
mod steps;
mod table;
mod verdict;

pub use check::check_shared;
pub use laws::{
    one_set_count, shared_is_valid, shared_proof_unfolds, unfolded_proves, unfolds_once,
};
pub use steps::share;
pub use table::Table;
pub use verdict::SharedVerdict;
