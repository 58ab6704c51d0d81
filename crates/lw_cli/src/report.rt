ghost use Rattle.std.specs.Prelude.{◌≡◌, ◌≤◌, OnOk, OnErr};
ghost use Rattle.lw_io.specs.Causes.{Rose};
ghost use Rattle.lw_io.specs.Output.{Adds, AddsPart};
ghost use Rattle.lw_cli.specs.declared.report.ReportFault.TheVariants.{Memory};

use lw_io::{Failed, Sink};
use std::alloc::AllocError;

/// What a command has to say when it is at its end.
#[derive(Debug, Drop)]
pub struct Report {
    /// The last line with its line feed, or nothing.
    pub line: Vec<u8>,
    /// The status with which the program ends: 0 or 1.
    pub status: u8,
}

/// Why a command isn't at its end.
#[derive(Clone, Copy, Debug, PartialEq, Eq)]
pub enum ReportFault {
    /// The sink failed to take what was to be written.
    SinkFailed,
    /// Memory ran out.
    Memory,
}

impl From<AllocError> for ReportFault {
    ghost from_gives = { λ _ fault. fault ≡ Memory };

    fn from(_error: AllocError) -> Self {
        ReportFault::Memory
    }
}

impl Report {
    /// Writes the line, if there is one.
    pub fn say<K: Sink>(&self, sink: &mut K) -> Result<(), Failed>
        ensures whole { OnOk result (Adds (K.written sink.old) (K.written sink.new) self.now.line.items) }
        ensures part { OnErr result (AddsPart (K.written sink.old) (K.written sink.new) self.now.line.items) }
        ensures cause { OnErr result (Rose (K.faults sink.old) (K.faults sink.new)) }
        ensures later { K.faults sink.old ≤ K.faults sink.new }
    {
        if self.line.is_empty() {
            return Ok(());
        }
        sink.write(self.line.as_slice())
    }
}
