ghost use Rattle.std.specs.Prelude.{◌≡◌, ◌≤◌, IfOk, string_bytes};
ghost use Rattle.lw_cli.specs.FindingLines.{finding_line, finding_status};

use crate::fault_line::FILE_LIMIT_LINE;
use std::alloc::{AllocError, Global};

/// What `check` has to say of a file, in one line.
#[derive(Clone, Copy, Debug, PartialEq, Eq)]
pub enum Finding {
    /// The file has more than 1,048,576 bytes.
    FileLimit,
    /// No certificate's text goes on at this line, from 1, which stands in the body of a model.
    ModelText(usize),
    /// No certificate's text goes on at this line, from 1, which is any other.
    ProofText(usize),
    /// The proof proves the formula, or the model refutes it.
    Accepted,
    /// This step of the proof, from 1 in pre-order, is the first that breaks its rule.
    RejectedStep(usize),
    /// The model isn't of the logic's class, or the formula is true at the world.
    RejectedModel,
}

impl Finding {
    /// The line that is written, with its line feed. It fails for want of memory alone.
    pub fn line(self, alloc: Global) -> Result<String, AllocError>
        ensures { IfOk result (λ line. string_bytes line ≡ finding_line self) }
    {
        match self {
            Finding::FileLimit => String::from_str(alloc, FILE_LIMIT_LINE),
            Finding::ModelText(line) => format!(in alloc; "fault: line {line}: model text\n"),
            Finding::ProofText(line) => format!(in alloc; "fault: line {line}: proof text\n"),
            Finding::Accepted => String::from_str(alloc, "accepted\n"),
            Finding::RejectedStep(step) => format!(in alloc; "rejected: step {step}\n"),
            Finding::RejectedModel => String::from_str(alloc, "rejected: model\n"),
        }
    }

    /// The status with which the program ends: 0 where the certificate is accepted, else 1.
    pub fn status(self) -> u8
        ensures value { result ≡ finding_status self }
        ensures small { result ≤ 1 }
    {
        match self {
            Finding::Accepted => 0,
            Finding::FileLimit
            | Finding::ModelText(_)
            | Finding::ProofText(_)
            | Finding::RejectedStep(_)
            | Finding::RejectedModel => 1,
        }
    }
}
