//! The search in GL: each step adds a ν that the label lacks.
#![tactic(auto)]

mod searching;
mod steps;

pub use searching::search_gl;
