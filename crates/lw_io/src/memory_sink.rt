ghost use Rattle.std.specs.Prelude.{◌≡◌, ◌+◌, ◌≤◌, ◌↔◌, ◌++◌, length, vec_capacity, IsTrue, IsErr, IfOk, OnOk, OnErr};
ghost use Rattle.std.specs.FinMap as finite;
ghost use Rattle.lw_io.specs.Causes.{Rose};
ghost use Rattle.lw_io.specs.Output.{Adds, AddsPart};
ghost use Rattle.lw_io.specs.Memory.{empty_sink, write_fails, after_write};
ghost use Rattle.lw_io.specs.Private.MapEntries.{keeps_of};

use super::count::count_one;
use super::sink::{Failed, Sink};
use std::alloc::{AllocError, Global};
use std::marker::Model;

/// Output in memory with room for so many bytes, of which chosen writes fail.
///
/// A write takes no memory. It fails exactly where its number is listed or the piece doesn't fit
/// the rest of the room. Where it isn't listed and doesn't fit, it keeps what fits.
#[derive(Drop)]
pub struct MemorySink {
    bytes: Vec<u8>,
    room: usize,
    // the newest first
    listed: Vec<(u64, usize)>,
    calls: u64,
    faults: u64,
}

impl Model for MemorySink {
    ghost use Rattle.std.specs.Prelude.{◌≤◌, length, vec_capacity};
    ghost use Rattle.lw_io.specs.Memory.{SinkState, sink_code};
    ghost use Rattle.lw_io.specs.Private.MapEntries.{keeps_of};

    ghost Value = { SinkState };

    ghost coded = { sink_code };

    ghost view = { λ a. record { written = a.bytes.items; room = a.room; listed = keeps_of a.listed.items; calls = a.calls; faults = a.faults } };

    ghost invariant = { λ a. (length a.bytes.items ≤ a.room) × (a.room ≤ vec_capacity a.bytes) };
}

impl MemorySink {
    /// An empty sink with no faults, with room for `room` bytes, for which it takes the memory at
    /// once.
    pub fn with_room(alloc: Global, room: usize) -> Result<Self, AllocError>
        ensures { IfOk result (λ sink. sink ≡ empty_sink room) }
    {
        Ok(MemorySink {
            bytes: Vec::with_capacity(alloc, room)?,
            room,
            listed: Vec::new(alloc),
            calls: 0,
            faults: 0,
        })
    }

    /// Lists the write of that number, counted from 1, among those that fail. It keeps the longest
    /// first part of its piece that has at most `keep` bytes and fits. Where a number is listed
    /// twice the last listing counts. The numbers stand still at `u64::MAX` once they have reached
    /// it. After an error the sink is as before.
    pub fn fail_at(&mut self, call: u64, keep: usize) -> Result<(), AllocError>
        ensures ok { OnOk result (self.new ≡ record self.old { listed = finite.insert self.old.listed call keep }) }
        ensures err { OnErr result (self.new ≡ self.old) }
    {
        self.listed.insert(0, (call, keep))?;
        Ok(())
    }

    /// What was written.
    pub fn bytes(&self) -> &[u8]
        ensures { result.now ≡ self.now.written }
    {
        self.bytes.as_slice()
    }
}

impl Sink for MemorySink {
    ghost use Rattle.std.specs.Prelude.{Some};

    ghost written = { λ sink. Some sink.written };

    ghost faults = { λ sink. sink.faults };

    fn write(&mut self, piece: &[u8]) -> Result<(), Failed>
        ensures whole { OnOk result (Adds (Some self.old.written) (Some self.new.written) piece.now) }
        ensures part { OnErr result (AddsPart (Some self.old.written) (Some self.new.written) piece.now) }
        ensures cause { OnErr result (Rose self.old.faults self.new.faults) }
        ensures later { self.old.faults ≤ self.new.faults }

        // It fails exactly where the write is listed or the piece doesn't fit, and keeps what it may then.
        ensures failed { IsErr result ↔ IsTrue (write_fails self.old piece.now) }
        ensures after { self.new ≡ after_write self.old piece.now }
    {
        count_one(&mut self.calls);
        let fits = piece.len().min(self.room - self.bytes.len());
        let listed = keep_at(&self.listed, self.calls);
        let kept = match listed {
            Some(keep) => keep.min(fits),
            None => fits,
        };
        add_within(&mut self.bytes, &piece[..kept]);
        if listed.is_some() || fits < piece.len() {
            count_one(&mut self.faults);
            return Err(Failed);
        }
        Ok(())
    }
}

// How many bytes the write of that number may keep, where it is listed.
fn keep_at(listed: &[(u64, usize)], call: u64) -> Option<usize>
    ensures { result ≡ finite.get (keeps_of listed.now) call }
{
    for &(number, keep) in listed {
        if number == call {
            return Some(keep);
        }
    }
    None
}

// Appends a piece for which there is memory.
fn add_within(bytes: &mut Vec<u8>, piece: &[u8])
    requires { length bytes.old.items + length piece.now ≤ vec_capacity bytes.old }
    ensures added { bytes.new.items ≡ bytes.old.items ++ piece.now }
    ensures room { vec_capacity bytes.old ≤ vec_capacity bytes.new }
{
    if bytes.extend_from_slice(piece).is_err() {
        unreachable!();
    }
}
