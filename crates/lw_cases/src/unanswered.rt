use lw_cert::CertFault;
use lw_closure::ClosureFault;
use lw_decide::DecideFault;
use lw_formula::NameFault;
use lw_read::{PrintFault, ReadFault};
use std::alloc::AllocError;

/// A line that couldn't be carried out: it is malformed, or memory is wanting.
#[derive(Clone, Copy, Debug)]
pub struct Unanswered;

impl From<AllocError> for Unanswered {
    fn from(_: AllocError) -> Self {
        Unanswered
    }
}

impl From<NameFault> for Unanswered {
    fn from(_: NameFault) -> Self {
        Unanswered
    }
}

impl From<ReadFault> for Unanswered {
    fn from(_: ReadFault) -> Self {
        Unanswered
    }
}

impl From<PrintFault> for Unanswered {
    fn from(_: PrintFault) -> Self {
        Unanswered
    }
}

impl From<CertFault> for Unanswered {
    fn from(_: CertFault) -> Self {
        Unanswered
    }
}

impl From<DecideFault> for Unanswered {
    fn from(_: DecideFault) -> Self {
        Unanswered
    }
}

impl From<ClosureFault> for Unanswered {
    fn from(_: ClosureFault) -> Self {
        Unanswered
    }
}
