//! The search in K, KT and KD: each step goes to formulas of a smaller modal depth.
#![tactic(auto)]

mod searching;
mod steps;

pub use searching::search_k;
