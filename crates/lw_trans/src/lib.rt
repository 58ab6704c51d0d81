//! Translations between logics: Gödel's of intuitionistic logic into S4, and that of Grz into GL.
#![tactic(auto)]

mod connective;
mod fault;
mod grz_to_gl;
mod intuitionistic_to_s4;
mod laws;

pub use connective::Connective;
pub use fault::TransFault;
pub use grz_to_gl::boxdot;
pub use intuitionistic_to_s4::goedel;
pub use laws::{boxdot_is_faithful, goedel_is_faithful};
