//! The workbench's commands over a store and a sink: `run FILE` carries out a script, `check FILE` reads a certificate
//! and writes whether it shows what it claims, and `gen N` counts the valid formulas of four families.
#![tactic(auto)]

mod asked;
mod carry_out;
mod check_file;
mod fault_line;
mod file_limit;
mod finding;
mod gen_families;
mod laws;
mod report;
mod run_file;
mod top_call;
mod words;

pub use asked::{Command, FileName};
pub use finding::Finding;
pub use laws::{certificate_is_printed, printed_is_accepted};
pub use top_call::workbench;
pub use words::command;
