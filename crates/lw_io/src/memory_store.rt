ghost use Rattle.std.specs.Prelude.{◌≡◌, ◌+◌, ◌<◌, ◌≤◌, ◌↔◌, not, [], ◌∷◌, ◌++◌, length, take, string_bytes, option_copied, IsTrue, IfOk, OnOk, OnErr, IsErrOf};
ghost use Rattle.std.specs.FinMap as finite;
ghost use Rattle.lw_io.specs.Causes.{Rose};
ghost use Rattle.lw_io.specs.Files.{IsHeldPart, IsSure, bytes_at};
ghost use Rattle.lw_io.specs.Memory.{empty_store, next_is_listed, fetch_fails, after_fetch};
ghost use Rattle.lw_io.specs.Private.MapEntries.{files_of};

use super::count::count_one;
use super::store::{FetchFault, Store};
use std::alloc::{AllocError, Global};
use std::collections::BTreeMap;
use std::marker::Model;

/// Files in memory, of which chosen fetches fail.
///
/// A fetch answers `Failed` exactly where no file has the name or the number of the fetch is listed.
#[derive(Drop)]
pub struct MemoryStore {
    alloc: Global,
    files: BTreeMap<String, Vec<u8>>,
    listed: Vec<u64>,
    calls: u64,
    faults: u64,
}

impl Model for MemoryStore {
    ghost use Rattle.lw_io.specs.Memory.{StoreState, store_code};
    ghost use Rattle.lw_io.specs.Private.MapEntries.{files_of};

    ghost Value = { StoreState };

    ghost coded = { store_code };

    ghost view = { λ a. record { files = files_of a.files.entries; listed = a.listed.items; calls = a.calls; faults = a.faults } };
}

impl MemoryStore {
    /// An empty store with no faults.
    pub fn new(alloc: Global) -> Self
        ensures { result ≡ empty_store }
    {
        MemoryStore {
            alloc,
            files: BTreeMap::new(alloc),
            listed: Vec::new(alloc),
            calls: 0,
            faults: 0,
        }
    }

    /// Sets the bytes of the named file, which may be new. After an error the store is as before.
    pub fn put(&mut self, name: &str, bytes: &[u8]) -> Result<(), AllocError>
        ensures ok { OnOk result (self.new ≡ record self.old { files = finite.insert self.old.files name.now bytes.now }) }
        ensures err { OnErr result (self.new ≡ self.old) }
    {
        let key = String::from_str(self.alloc, name)?;
        let value = Vec::from_slice(self.alloc, bytes)?;
        set_bytes(&mut self.files, key, value)
    }

    /// Lists the fetch of that number, counted from 1, among those that fail. The numbers stand
    /// still at `u64::MAX` once they have reached it. After an error the store is as before.
    pub fn fail_at(&mut self, call: u64) -> Result<(), AllocError>
        ensures ok { OnOk result (self.new ≡ record self.old { listed = self.old.listed ++ call ∷ [] }) }
        ensures err { OnErr result (self.new ≡ self.old) }
    {
        self.listed.push(call)?;
        Ok(())
    }
}

impl Store for MemoryStore {
    ghost use Rattle.std.specs.Prelude.{Some, not};
    ghost use Rattle.lw_io.specs.Memory.{next_is_listed};

    ghost holds = { λ store. Some store.files };

    ghost faults = { λ store. store.faults };

    ghost sure = { λ store. not (next_is_listed store) };

    fn fetch(&mut self, alloc: Global, name: &str, max: usize) -> Result<Vec<u8>, FetchFault>
        requires { max < usize.MAX }
        ensures size { IfOk result (λ bytes. length bytes.items ≤ max + 1) }
        ensures bytes { IfOk result (λ bytes. IsHeldPart (Some self.old.files) name.now (max + 1) bytes.items) }
        ensures cause { IsErrOf result FetchFault.Failed → Rose self.old.faults self.new.faults }
        ensures unsure { IsErrOf result FetchFault.Failed → ¬ IsSure (not (next_is_listed self.old)) (Some self.old.files) name.now }
        ensures later { self.old.faults ≤ self.new.faults }
        ensures same { Some self.new.files ≡ Some self.old.files }

        // It fails exactly where no file has the name or the fetch is listed, and changes no more than its counts.
        ensures failed { IsErrOf result FetchFault.Failed ↔ IsTrue (fetch_fails self.old name.now) }
        ensures after { self.new ≡ after_fetch self.old name.now }
    {
        count_one(&mut self.calls);
        let listed = self.listed.contains(&self.calls);
        let Some(bytes) = bytes_of(&self.files, name) else {
            count_one(&mut self.faults);
            return Err(FetchFault::Failed);
        };
        if listed {
            count_one(&mut self.faults);
            return Err(FetchFault::Failed);
        }
        first_bytes(alloc, bytes, max + 1)
    }
}

// The first bytes, at most so many.
fn first_bytes(alloc: Global, bytes: &[u8], limit: usize) -> Result<Vec<u8>, FetchFault>
    ensures ok { IfOk result (λ part. part.items ≡ take limit bytes.now) }
    ensures err { ¬ IsErrOf result FetchFault.Failed }
{
    let part = &bytes[..limit.min(bytes.len())];
    Vec::from_slice(alloc, part).map_err(|_| FetchFault::Memory)
}

// Sets the bytes at a name. After an error the files are as before.
fn set_bytes(
    files: &mut BTreeMap<String, Vec<u8>>,
    name: String,
    bytes: Vec<u8>,
) -> Result<(), AllocError>
    ensures ok { OnOk result (files_of files.new.entries ≡ finite.insert (files_of files.old.entries) (string_bytes name) bytes.items) }
    ensures err { OnErr result (files_of files.new.entries ≡ files_of files.old.entries) }
{
    files.insert(name, bytes)?;
    Ok(())
}

// The bytes at a name.
fn bytes_of<'a>(files: &'a BTreeMap<String, Vec<u8>>, name: &str) -> Option<&'a [u8]>
    ensures { option_copied result ≡ bytes_at (files_of files.now.entries) name.now }
{
    files.get(name).map(Vec::as_slice)
}
