//! A region of formulas that the upper layers share: each formula once, behind its operands.
#![tactic(auto)]

mod components;
mod conversion;
mod depth;
mod guard;
mod id;
mod mark;
mod node;
mod pool;
mod subformula;
mod substitution;
mod variable;
mod walk;

pub use id::{FormId, SignedId};
pub use mark::Mark;
pub use node::Node;
pub use pool::Pool;
pub use walk::{Formulas, Step, fold};
