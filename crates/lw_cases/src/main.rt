//! Runs cases that are data: each line of the standard input sets something or is a case, and each case writes a line.
//! What the lines are is said at the head of the file `stdin`; what is to be written is the file `stdout`.
#![tactic(auto)]

mod case;
mod certificates;
mod chains;
mod closures;
mod disk;
mod entry;
mod escapes;
mod fixed_points;
mod formulas;
mod functions;
mod interpolants;
mod items;
mod models;
mod numbers;
mod pools;
mod quotients;
mod repeats;
mod runs;
mod scripts;
mod setting;
mod tables;
mod texts;
mod top_call;
mod traces;
mod unanswered;
mod values;
mod variables;
mod verdicts;

use crate::case::{is_setting, written};
use crate::disk::disk_line;
use crate::escapes::shown;
use crate::setting::Setting;
use crate::unanswered::Unanswered;
use lw_io::DiskStore;
use std::io;

// What the case writes.
fn bytes_written(
    rt: HostRuntime,
    setting: &mut Setting,
    verb: &str,
    rest: &str,
) -> Result<Vec<u8>, Unanswered> {
    if verb == "disk" {
        return disk_line(setting.alloc, &mut DiskStore::new(rt), rest.as_bytes());
    }
    written(setting, verb, rest)
}

// What is written of one line, if it is a case.
fn answer(
    rt: HostRuntime,
    setting: &mut Setting,
    line: &str,
) -> Result<Option<String>, Unanswered> {
    let (verb, rest) = line.split_once(' ').unwrap_or((line, ""));
    if verb.is_empty() || verb == "#" {
        return Ok(None);
    }
    if is_setting(verb) {
        setting.set(verb, rest)?;
        return Ok(None);
    }
    let bytes = bytes_written(rt, setting, verb, rest)?;
    Ok(Some(shown(setting.alloc, &bytes)?))
}

fn main(rt: HostRuntime) -> io::Result<()> {
    let mut setting = Setting::new(rt.alloc());
    for line in rt.lines(rt.alloc()) {
        let line = line?;
        match answer(rt, &mut setting, line.as_str()) {
            Ok(None) => {}
            Ok(Some(text)) => println!(rt; "{text}")?,
            Err(_) => println!(rt; "unanswered: {line}")?,
        }
    }
    Ok(())
}
