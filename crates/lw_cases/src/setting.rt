use crate::escapes::bytes_of;
use crate::numbers::{number, sides};
use crate::unanswered::Unanswered;
use lw_io::{MemorySink, MemoryStore};
use std::alloc::{AllocError, Global};

/// The name of the file that the store holds.
const FILE: &str = "file";

/// What the next cases are about.
#[derive(Drop)]
pub struct Setting {
    pub alloc: Global,
    /// The text, which is what the file has.
    pub text: Vec<u8>,
    /// The room of the sink.
    room: usize,
    /// The number of the fetch that fails.
    fetch: Option<u64>,
    /// The number of the write that fails, and how many bytes of its piece it keeps.
    write: Option<(u64, usize)>,
}

impl Setting {
    /// No text, a sink with room for 1,000 bytes, and no call that fails.
    pub fn new(alloc: Global) -> Setting {
        Setting {
            alloc,
            text: Vec::new(alloc),
            room: 1_000,
            fetch: None,
            write: None,
        }
    }

    /// Sets what the verb says.
    pub fn set(&mut self, verb: &str, rest: &str) -> Result<(), Unanswered> {
        match verb {
            "text" => self.text = bytes_of(self.alloc, rest.as_bytes())?,
            "line" => self.add_line(rest.as_bytes())?,
            "room" => self.room = number(rest.as_bytes())?,
            "fail-fetch" => self.fetch = Some(number(rest.as_bytes())? as u64),
            _ => self.set_write(rest.as_bytes())?,
        }
        Ok(())
    }

    // Adds a line to the text.
    fn add_line(&mut self, rest: &[u8]) -> Result<(), Unanswered> {
        let line = bytes_of(self.alloc, rest)?;
        self.text.extend_from_slice(&line)?;
        self.text.extend_from_slice(b"\n")?;
        Ok(())
    }

    fn set_write(&mut self, rest: &[u8]) -> Result<(), Unanswered> {
        let (call, keep) = sides(rest, b' ')?;
        self.write = Some((number(call)? as u64, number(keep)?));
        Ok(())
    }

    /// A store that holds the file.
    pub fn store(&self) -> Result<MemoryStore, AllocError> {
        let mut store = MemoryStore::new(self.alloc);
        store.put(FILE, &self.text)?;
        if let Some(call) = self.fetch {
            store.fail_at(call)?;
        }
        Ok(store)
    }

    /// An empty sink.
    pub fn sink(&self) -> Result<MemorySink, AllocError> {
        let mut sink = MemorySink::with_room(self.alloc, self.room)?;
        if let Some((call, keep)) = self.write {
            sink.fail_at(call, keep)?;
        }
        Ok(sink)
    }

    /// Forgets what was set for one run.
    pub fn forget(&mut self) {
        self.room = 1_000;
        self.fetch = None;
        self.write = None;
    }
}
