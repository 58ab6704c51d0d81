//! Values and variables of scripts: what an expression gives, its weight, and the variables in order of first
//! assignment.
#![tactic(auto)]

mod env;
mod equality;
mod laws;
mod length;
mod text;
mod value;
mod walk;

pub use env::Env;
pub use equality::{are_equal, is_comparable};
pub use laws::{one_line, one_text};
pub use length::{measured, measured_line};
pub use text::{line_text, value_text};
pub use value::{Items, Value, weight};
