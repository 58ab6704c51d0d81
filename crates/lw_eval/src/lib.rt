//! The meaning of scripts, and the evaluator that keeps it.
#![tactic(auto)]

mod at_line;
mod call;
mod comparing;
mod deciding;
mod eval;
mod fault;
mod fixing;
mod form;
mod interpolating;
mod laws;
mod leaf;
mod listing;
mod measure;
mod operator;
mod print;
mod replacing;
mod run;
mod run_fault;
mod sharing;
mod shrinking;
mod step;
mod tracing;
mod trouble;

pub use laws::{one_output, run_falls_apart, run_goes_on, run_may_be_cut, steps_end};
pub use run::run_script;
pub use run_fault::RunFault;
pub use trouble::Trouble;
