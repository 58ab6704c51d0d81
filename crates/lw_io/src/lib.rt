//! The outside: where a program's files come from and where its output goes, with every failure counted.
#![tactic(auto)]

mod count;
mod disk_store;
mod memory_sink;
mod memory_store;
mod sink;
mod std_sink;
mod store;

pub use disk_store::DiskStore;
pub use memory_sink::MemorySink;
pub use memory_store::MemoryStore;
pub use sink::{Failed, Sink};
pub use std_sink::StdSink;
pub use store::{FetchFault, Store};
