ghost use Rattle.std.specs.Prelude.{◌≡◌, OnOk, OnErr};
ghost use Rattle.std.specs.Io.KnownBytes.{Appends};
ghost use Rattle.lw_io.specs.Output.{AppendsPart};

use super::count::count_one;
use super::sink::{Failed, Sink};
use std::io::{self, Print, Write};

/// The runtime's standard output.
///
/// A write answers `Failed` at every error of the system, and where the system takes nothing of a
/// piece that isn't empty, and counts it. The sink doesn't tell its output, so no contract says
/// what reaches it.
#[derive(Drop)]
pub struct StdSink<R: Print + Drop> {
    rt: R,
    faults: u64,
}

impl<R: Print + Drop> StdSink<R> {
    /// A sink with no faults.
    pub fn new(rt: R) -> Self
        ensures { ⟦<StdSink<R> as Sink>⟧.faults result ≡ 0 }
    {
        StdSink { rt, faults: 0 }
    }
}

impl<R: Print + Drop> Sink for StdSink<R> {
    ghost use Rattle.std.specs.Prelude.{None};

    ghost written = { λ _. None };

    ghost faults = { λ sink. sink.faults };

    fn write(&mut self, piece: &[u8]) -> Result<(), Failed> {
        let written = write_whole(&mut io::writer(&self.rt), piece);
        if written.is_err() {
            count_one(&mut self.faults);
        }
        written
    }
}

// Writes until the piece is whole. A write that takes nothing of the rest is a failure. A writer
// that tells its bytes has the piece at their end then, and after a failure a first part of it.
fn write_whole<W: Write>(writer: &mut W, piece: &[u8]) -> Result<(), Failed>
    ensures whole { OnOk result (Appends (W.contents writer.old) (W.contents writer.new) piece.now) }
    ensures part { OnErr result (AppendsPart (W.contents writer.old) (W.contents writer.new) piece.now) }
{
    let mut rest = piece;
    while !rest.is_empty() {
        match writer.write(rest) {
            Ok(0) | Err(_) => return Err(Failed),
            Ok(count) => rest = &rest[count..],
        }
    }
    Ok(())
}
