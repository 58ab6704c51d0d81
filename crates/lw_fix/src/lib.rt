//! Fixed points in the provability logic GL.
#![tactic(auto)]

mod bare;
mod construction;
mod fault;
mod image;
mod in_gl;
mod laws;
mod outermost;

pub use fault::FixFault;
pub use in_gl::{BOX_LIMIT, fixed_point};
pub use laws::{
    fix_is_fixed_point, fix_is_unique, fix_unfolds, order_says_nothing, outermost_are_exact,
};
