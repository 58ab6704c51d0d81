ghost use Rattle.std.specs.Prelude.{◌≡◌, ◌<◌, length, IfOk};
ghost use Rattle.lw_trace.specs.Private.TruthRows.{places_apart, read_off};

use std::alloc::{AllocError, Global};
use std::marker::Model;

/// The truth of a formula without variables at the worlds of GL's models, by their heights: one value at all heights but
/// a few, and the other one there.
#[derive(Debug, Drop)]
pub struct Trace {
    rest: bool,
    heights: Vec<usize>,
}

impl Model for Trace {
    ghost use Rattle.lw_trace.specs.LetterlessTruth.{TruthByHeight};

    ghost Value = { TruthByHeight };

    ghost view = { λ trace. record { rest = trace.rest; heights = trace.heights.items } };
}

impl Trace {
    /// The trace with the value at this height as that of all but a few, and the heights of the row at which the value is
    /// the other one.
    pub(crate) fn read_off(alloc: Global, row: &[bool], at: usize) -> Result<Trace, AllocError>
        requires { at < length row.now }
        ensures { IfOk result (λ trace. trace ≡ read_off row.now at) }
    {
        let rest = row[at];
        let heights = places_apart(alloc, row, rest)?;
        Ok(Trace { rest, heights })
    }

    /// The truth value at all heights but the listed ones.
    pub fn rest(&self) -> bool
        ensures { result ≡ self.now.rest }
    {
        self.rest
    }

    /// The heights, ascending, at which the truth value is the other one. Each is below the formula's modal depth.
    pub fn heights(&self) -> &[usize]
        ensures { result.now ≡ self.now.heights }
    {
        &self.heights
    }
}

/// The places of the row at which the value isn't this one.
fn places_apart(alloc: Global, row: &[bool], rest: bool) -> Result<Vec<usize>, AllocError>
    ensures { IfOk result (λ places. places.items ≡ places_apart row.now rest) }
{
    row.iter()
        .enumerate()
        .filter(|(_, value)| **value != rest)
        .map(|(place, _)| place)
        .collect(alloc)
}
