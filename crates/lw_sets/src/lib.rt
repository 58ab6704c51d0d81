//! Sets of signed ids as the sets of signed formulas that a proof goes by: what is in them, what a rule adds, and what a
//! step to another world keeps.
#![tactic(auto)]

mod kept;
mod members;
mod step;

pub use kept::kept_items;
pub use members::{add_side, has};
pub use step::stepped;
