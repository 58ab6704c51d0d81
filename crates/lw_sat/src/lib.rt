//! The saturation of labels by all rules but Step and Serial, by Smullyan's signed tableau (First-Order Logic, chapter II): the
//! unclosed labels that come of a seed, one after another, until all are refused and a proof closes the seed.
#![tactic(auto)]

mod bits;
mod board;
mod closing;
mod fold;
mod frame;
mod grow;
mod round;
mod saturation;
mod work;

pub use board::Board;
pub use closing::unwind;
pub use fold::{fold_frame, over_one};
pub use frame::{Folded, Frame, Side};
pub use round::run;
pub use saturation::{Found, Saturation};
