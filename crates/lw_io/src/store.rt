ghost use Rattle.std.specs.Prelude.{◌≡◌, ℕ, ◌+◌, ◌<◌, ◌≤◌, Bool, Option, length, IfOk, IsErrOf};
ghost use Rattle.lw_io.specs.Causes.{Rose};
ghost use Rattle.lw_io.specs.Files.{Files, IsHeldPart, IsSure};

use std::alloc::Global;

/// Why a file couldn't be fetched.
#[derive(Clone, Copy, Debug, PartialEq, Eq)]
pub enum FetchFault {
    /// The file isn't there, or the outside failed to give it. The store has counted it.
    Failed,
    /// There was no memory for the file's bytes.
    Memory,
}

/// Where files come from.
pub trait Store {
    // the files, where the store tells them
    ghost holds: { Self → Option Files };

    // how many times the store has failed
    ghost faults: { Self → ℕ };

    // the next fetch won't fail at a name that the store tells
    ghost sure: { Self → Bool };

    /// The first `max + 1` bytes of the named file, or all of them where there are fewer, so that
    /// a caller can tell a file of `max` bytes from a longer one.
    ///
    /// `Failed` comes where the file can't be had, and is counted. It never comes at a name of
    /// which the store is sure. `Memory` comes where there is no memory for the bytes.
    fn fetch(&mut self, alloc: Global, name: &str, max: usize) -> Result<Vec<u8>, FetchFault>
        requires { max < usize.MAX }
        ensures size { IfOk result (λ bytes. length bytes.items ≤ max + 1) }
        ensures bytes { IfOk result (λ bytes. IsHeldPart (holds self.old) name.now (max + 1) bytes.items) }
        ensures cause { IsErrOf result FetchFault.Failed → Rose (faults self.old) (faults self.new) }
        ensures unsure { IsErrOf result FetchFault.Failed → ¬ IsSure (sure self.old) (holds self.old) name.now }
        ensures later { faults self.old ≤ faults self.new }
        ensures same { holds self.new ≡ holds self.old };
}
