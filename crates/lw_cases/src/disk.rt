//! A case on a file of the folder that the program runs in.

use crate::numbers::{number, sides};
use crate::unanswered::Unanswered;
use lw_io::{DiskStore, FetchFault, Store};
use std::alloc::Global;

/// The first bytes of the named file, one more than so many at most, or that it can't be had: `MAX NAME`.
pub fn disk_line(
    alloc: Global,
    store: &mut DiskStore<HostRuntime>,
    rest: &[u8],
) -> Result<Vec<u8>, Unanswered> {
    let (max, name) = sides(rest, b' ')?;
    let name = String::from_utf8_lossy(alloc, name)?;
    fetched(alloc, store, name.as_str(), number(max)?)
}

fn fetched(
    alloc: Global,
    store: &mut DiskStore<HostRuntime>,
    name: &str,
    max: usize,
) -> Result<Vec<u8>, Unanswered> {
    if max > 1_000 {
        return Err(Unanswered);
    }
    match store.fetch(alloc, name, max) {
        Ok(bytes) => Ok(bytes),
        Err(FetchFault::Failed) => Ok(Vec::from_slice(alloc, b"failed")?),
        Err(FetchFault::Memory) => Err(Unanswered),
    }
}
