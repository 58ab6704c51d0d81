ghost use Rattle.std.specs.Prelude.{◌≡◌, ℕ, List, IfOk, string_bytes};

use std::alloc::{AllocError, Global};
use std::marker::Model;

/// The name of a file, seen as the list of the bytes of a text.
#[derive(Debug, Drop)]
pub struct FileName {
    text: String,
}

impl Model for FileName {
    ghost use Rattle.std.specs.Prelude.{ℕ, List, string_bytes};

    ghost Value = { List ℕ };

    ghost view = { λ name. string_bytes name.text };
}

impl FileName {
    /// The name of that text. It fails for want of memory alone.
    pub fn from_text(alloc: Global, text: &str) -> Result<FileName, AllocError>
        ensures { IfOk result (λ name. name ≡ text.now) }
    {
        Ok(FileName {
            text: String::from_str(alloc, text)?,
        })
    }

    /// The text.
    pub fn as_str(&self) -> &str
        ensures { result.now ≡ self.now }
    {
        self.text.as_str()
    }
}

/// What the words of the command line ask for.
#[derive(Debug, Drop)]
pub enum Command {
    /// To carry out the script of the file.
    Run(FileName),
    /// To say whether the certificate of the file shows what it claims.
    Check(FileName),
    /// To say how many formulas of the four families are valid, for the numbers from 1 to this one.
    Gen(u64),
}
