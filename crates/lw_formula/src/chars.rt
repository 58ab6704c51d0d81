ghost use Rattle.std.specs.Prelude.{◌≡◌, ℕ, List, IfOk};
ghost use Rattle.std.specs.Str.{bytes_eq};
ghost use Rattle.std.specs.Hash as fed;
ghost use Rattle.std.specs.Cmp.Rules.{comparing, hashing};
ghost use Rattle.std.proofs.Common.{rules};

use std::alloc::{AllocError, Global};
use std::hash::{Hash, Hasher};
use std::marker::Model;

/// A text of any bytes, seen as the list of them.
#[derive(Debug, Drop)]
pub struct Chars {
    bytes: Vec<u8>,
}

impl Model for Chars {
    ghost Value = { List ℕ };

    ghost view = { λ chars. chars.bytes.items };
}

impl Chars {
    /// The text of these bytes. It fails for want of memory alone.
    pub fn from_bytes(alloc: Global, bytes: &[u8]) -> Result<Chars, AllocError>
        ensures { IfOk result (λ chars. chars ≡ bytes.now) }
    {
        Ok(Chars {
            bytes: Vec::from_slice(alloc, bytes)?,
        })
    }

    /// The bytes of the text.
    pub fn as_bytes(&self) -> &[u8]
        ensures { result.now ≡ self.now }
    {
        self.bytes.as_slice()
    }

    /// A second text of the same bytes. It fails for want of memory alone.
    pub fn try_clone(&self) -> Result<Chars, AllocError>
        ensures { IfOk result (λ chars. chars ≡ self.now) }
    {
        let alloc = *self.bytes.allocator();
        Chars::from_bytes(alloc, self.bytes.as_slice())
    }
}

impl PartialEq for Chars {
    ghost eq = { bytes_eq };

    ghost laws = { Prim.search (comparing, rules) };

    fn eq(&self, other: &Chars) -> bool {
        self.bytes.as_slice() == other.bytes.as_slice()
    }
}

impl Eq for Chars {
    ghost laws = { Prim.search (comparing, rules) };
}

impl Hash for Chars {
    ghost hash_input = { fed.slice fed.u8 };

    ghost respects_eq = { Prim.search (hashing, rules) };

    fn hash<H: Hasher>(&self, state: &mut H) {
        self.bytes.as_slice().hash(state);
    }
}
