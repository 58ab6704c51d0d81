//! The workbench's program: `run FILE` carries out a script, and `check FILE` reads a certificate and writes whether it
//! shows what it claims.
#![tactic(auto)]

use lw_cli::workbench;
use lw_io::{DiskStore, StdSink};
use std::env;
use std::io::ErrorKind;
use std::process::ExitCode;

/// The status where the words are no command.
const NO_COMMAND: u8 = 2;

/// The status where memory is wanting.
const NO_MEMORY: u8 = 5;

fn status(rt: HostRuntime) -> u8 {
    let alloc = rt.alloc();
    let mut args = match env::args(&rt) {
        Ok(args) => args,
        Err(error) if error.kind() == ErrorKind::OutOfMemory => return NO_MEMORY,
        Err(_) => return NO_COMMAND,
    };
    let _ = args.next();
    let Ok(words) = args.collect::<Vec<String>>(alloc) else {
        return NO_MEMORY;
    };
    let mut store = DiskStore::new(rt);
    let mut sink = StdSink::new(rt);
    workbench(alloc, words.as_slice(), &mut store, &mut sink)
}

fn main(rt: HostRuntime) -> ExitCode {
    ExitCode::from(status(rt))
}
