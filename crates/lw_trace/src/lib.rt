//! Formulas without variables in the provability logic GL: their truth by the heights of worlds, and a normal form.
#![tactic(auto)]

mod fault;
mod laws;
mod normal_form;
mod tracing;
mod truth_by_height;
mod truth_rows;

pub use fault::TraceFault;
pub use laws::{
    form_is_equivalent, form_is_letterless, form_is_unique, heights_are_exact, trace_decides,
    truth_goes_by_height, truth_settles,
};
pub use normal_form::letterless;
pub use tracing::trace;
pub use truth_by_height::Trace;
