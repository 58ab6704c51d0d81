//! The search in Grz: each step adds a guard that the label lacks.
#![tactic(auto)]

mod searching;
mod steps;

pub use searching::search_grz;
