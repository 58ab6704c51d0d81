//! Certificates: a proof or a countermodel with its formula, their texts, and the exact reading of texts.
#![tactic(auto)]

mod build;
mod certificate;
mod fault;
mod formula;
mod laws;
mod model_writer;
mod next;
mod proof_writer;
mod reader;
mod row;
mod split;
mod stage;
mod words;
mod writer;

pub use certificate::{Body, Certificate};
pub use fault::CertFault;
pub use laws::{one_answer, one_certificate, one_text, written_reads_back};
pub use reader::read_certificate;
pub use writer::certificate_text;
