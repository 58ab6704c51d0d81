//! Proof trees and the calculus of the eight logics, once for all of them, with the law that what has a proof is valid;
//! and the sets of signed ids that a walk over a proof goes by.
#![tactic(auto)]

mod calculus;
mod laws;
mod proof;
mod rule;
mod signed_ids;
mod why;

pub use calculus::{has_cut, has_refl, has_serial};
pub use laws::{extensionality, first_break_is_exact, soundness, weakening};
pub use proof::Proof;
pub use rule::Rule;
pub use signed_ids::SignedIds;
pub use why::Why;
