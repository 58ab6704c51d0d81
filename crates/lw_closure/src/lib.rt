//! The numbered signed formulas over which the searches work.
#![tactic(auto)]

mod build;
mod entries;
mod entry;
mod fault;
mod guard;
mod item;
mod laws;
mod numbering;
mod table;

pub use build::closure;
pub use fault::{ClosureFault, SUBFORMULA_LIMIT};
pub use item::flip;
pub use laws::{growth_keeps, items_are_formulas};
pub use table::Closure;
