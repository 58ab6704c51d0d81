ghost use Rattle.std.specs.Prelude.{◌≡◌};
ghost use Rattle.lw_cert.specs.declared.fault.CertFault.TheVariants.{Memory};

use std::alloc::AllocError;
use thiserror::Error;

/// Why a text is no certificate's: the first line, from 1, up to which no certificate's text goes, whose step is too
/// deep, or whose formula has a fault. A line that isn't there counts as the next one, and a line without its line feed
/// as such a line.
#[derive(Clone, Copy, Debug, PartialEq, Eq, Error)]
pub enum CertFault {
    /// The line stands in the body of a model, or in place of the `end` behind it.
    #[error("no model at line {line}")]
    ModelText { line: usize },
    /// Any other line.
    #[error("no certificate at line {line}")]
    ProofText { line: usize },
    /// There is no memory for the certificate.
    #[error("out of memory")]
    Memory,
}

impl From<AllocError> for CertFault {
    ghost from_gives = { λ _ e. e ≡ Memory };

    fn from(_error: AllocError) -> Self {
        CertFault::Memory
    }
}
