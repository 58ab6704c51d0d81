//! The quotient of a finite model by its largest bisimulation.
#![tactic(auto)]

mod classes;
mod joined;
mod laws;
mod quotient;
mod rounds;

pub use laws::{
    bisimilar_worlds_agree, quotient_is_one, quotient_is_smallest, quotient_keeps_class,
    quotient_keeps_truth, quotient_refutes, quotient_worlds_differ,
};
pub use quotient::{Quotient, smallest};
