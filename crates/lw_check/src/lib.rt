//! The judge of proofs: it accepts exactly the proofs of a goal, and names the first step that breaks its rule.
#![tactic(auto)]

mod judge;
mod premise;
mod step;
mod verdict;
mod walked;

pub use judge::check;
pub use lw_proof::Why;
pub use verdict::Verdict;
