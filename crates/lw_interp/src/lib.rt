//! Craig interpolants, read off any proof of an implication in K, KT, S4 and GL.
#![tactic(auto)]

mod craig;
mod fault;
mod frame;
mod laws;
mod logics;
mod sides;
mod step;
mod walk;

pub use craig::interpolant;
pub use fault::InterpFault;
pub use laws::{read_off_is_interpolant, read_off_is_small};
pub use logics::has_interpolants;
