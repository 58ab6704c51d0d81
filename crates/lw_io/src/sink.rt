ghost use Rattle.std.specs.Prelude.{ℕ, ◌≤◌, List, Option, OnOk, OnErr};
ghost use Rattle.lw_io.specs.Causes.{Rose};
ghost use Rattle.lw_io.specs.Output.{Adds, AddsPart};

/// The outside failed to take a whole piece. The sink has counted it.
#[derive(Clone, Copy, Debug, PartialEq, Eq)]
pub struct Failed;

/// Where output goes.
pub trait Sink {
    // the bytes so far, where the sink tells them
    ghost written: { Self → Option (List ℕ) };

    // how many times the sink has failed
    ghost faults: { Self → ℕ };

    /// Appends the whole piece.
    ///
    /// `Failed` comes where the piece can't be written whole, and is counted. A first part of the
    /// piece, perhaps none of it or all, was appended then.
    fn write(&mut self, piece: &[u8]) -> Result<(), Failed>
        ensures whole { OnOk result (Adds (written self.old) (written self.new) piece.now) }
        ensures part { OnErr result (AddsPart (written self.old) (written self.new) piece.now) }
        ensures cause { OnErr result (Rose (faults self.old) (faults self.new)) }
        ensures later { faults self.old ≤ faults self.new };
}
