//! One call that decides a formula, whichever the logic.
#![tactic(auto)]

mod deciding;
mod fault;

pub use deciding::decide;
pub use fault::DecideFault;
