//! The search in S4 and K4: each step keeps the ν, and while none comes to them no π is stepped on twice.
#![tactic(auto)]

mod laws;
mod searching;
mod steps;

pub use laws::history_serves;
pub use searching::{search_k4, search_s4};
