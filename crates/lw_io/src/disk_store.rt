ghost use Rattle.std.specs.Prelude.{◌≡◌, ◌≤◌, length, take, IfOk, IfSome};

use super::count::count_one;
use super::store::{FetchFault, Store};
use std::alloc::Global;
use std::fs;
use std::io::Read;
use std::rt::Files;

/// The files of the runtime's file system, each under its path.
///
/// A fetch answers `Failed` at every error of the system, as where there is no such file, and
/// counts it. The store tells no files, so no contract says what a fetch gives.
#[derive(Drop)]
pub struct DiskStore<R: Files + Drop> {
    rt: R,
    faults: u64,
}

impl<R: Files + Drop> DiskStore<R> {
    /// A store with no faults.
    pub fn new(rt: R) -> Self
        ensures { ⟦<DiskStore<R> as Store>⟧.faults result ≡ 0 }
    {
        DiskStore { rt, faults: 0 }
    }
}

impl<R: Files + Drop> Store for DiskStore<R> {
    ghost use Rattle.std.specs.Prelude.{None, false};

    ghost holds = { λ _. None };

    ghost faults = { λ store. store.faults };

    ghost sure = { λ _. false };

    fn fetch(&mut self, alloc: Global, name: &str, max: usize) -> Result<Vec<u8>, FetchFault> {
        let fetched = read_file(&self.rt, alloc, name, max + 1);
        if let Err(FetchFault::Failed) = fetched {
            count_one(&mut self.faults);
        }
        fetched
    }
}

// The first bytes of the file at a path, at most so many.
fn read_file<R: Files>(
    rt: &R,
    alloc: Global,
    path: &str,
    limit: usize,
) -> Result<Vec<u8>, FetchFault>
    ensures { IfOk result (λ bytes. length bytes.items ≤ limit) }
{
    let mut file = fs::open(rt, path).map_err(|_| FetchFault::Failed)?;
    read_bytes(&mut file, alloc, limit)
}

// Reads until there are so many bytes, or to the end. Where a reader tells the bytes that it has,
// these are the first of them.
fn read_bytes<F: Read>(file: &mut F, alloc: Global, limit: usize) -> Result<Vec<u8>, FetchFault>
    ensures size { IfOk result (λ bytes. length bytes.items ≤ limit) }
    ensures bytes { IfOk result (λ bytes. IfSome (F.remaining file.old) (λ rest. bytes.items ≡ take limit rest)) }
{
    let mut bytes = Vec::new(alloc);
    let mut chunk = [0; 4096];
    while bytes.len() < limit {
        let wanted = chunk.len().min(limit - bytes.len());
        let count = file
            .read(&mut chunk[..wanted])
            .map_err(|_| FetchFault::Failed)?;
        if count == 0 {
            break;
        }
        bytes
            .extend_from_slice(&chunk[..count])
            .map_err(|_| FetchFault::Memory)?;
    }
    Ok(bytes)
}
