ghost use Rattle.std.specs.Prelude.{◌≤◌, length};

use crate::repeats::{add_repeat, repeat_list};
use crate::setting::Setting;
use crate::unanswered::Unanswered;
use lw_cli::workbench;
use lw_formula::Logic;
use std::alloc::{AllocError, Global};

// The words that stand in the text.
fn words_of(alloc: Global, text: &str) -> Result<Vec<String>, AllocError> {
    let mut words = Vec::new(alloc);
    for word in text.split_whitespace() {
        words.push(String::from_str(alloc, word)?)?;
    }
    Ok(words)
}

/// The status of these words over the setting's store and sink, and what was written.
pub fn run(setting: &Setting, words: &str) -> Result<(u8, Vec<u8>), AllocError> {
    let words = words_of(setting.alloc, words)?;
    let mut store = setting.store()?;
    let mut sink = setting.sink()?;
    let status = workbench(setting.alloc, &words, &mut store, &mut sink);
    Ok((status, Vec::from_slice(setting.alloc, sink.bytes())?))
}

/// The status and what was written, behind each other.
pub fn run_line(setting: &Setting, words: &str) -> Result<Vec<u8>, AllocError> {
    let (status, written) = run(setting, words)?;
    let mut line = format!(in setting.alloc; "{status}")?.into_bytes();
    if !written.is_empty() {
        line.extend_from_slice(b" ")?;
        line.extend_from_slice(&written)?;
    }
    Ok(line)
}

// The same over the first so many bytes of the text.
fn cut_line(setting: &Setting, len: usize, words: &str) -> Result<String, Unanswered>
    requires { len ≤ length setting.now.text.items }
{
    let mut cut = Setting::new(setting.alloc);
    cut.text = Vec::from_slice(setting.alloc, &setting.text[..len])?;
    let line = run_line(&cut, words)?;
    String::from_utf8(line).map_err(|_| Unanswered)
}

/// The same over the text cut behind each of its bytes from none on, each with how often it comes in a row.
pub fn run_cuts_line(setting: &Setting, words: &str) -> Result<String, Unanswered> {
    let mut lines = Vec::new(setting.alloc);
    for len in 0..=setting.text.len() {
        add_repeat(&mut lines, cut_line(setting, len, words)?)?;
    }
    Ok(repeat_list(setting.alloc, &lines)?)
}

// A script that prints what the function gives for the logic and the setting's text, a formula.
fn script_of(setting: &Setting, function: &str, logic: Logic) -> Result<Vec<u8>, AllocError> {
    let alloc = setting.alloc;
    let mut script = format!(in alloc; "print {function}({}, ", logic.word())?.into_bytes();
    script.extend_from_slice(&setting.text)?;
    script.extend_from_slice(b");")?;
    Ok(script)
}

// The status of the words over a text, and what was written.
fn run_text(alloc: Global, text: Vec<u8>, words: &str) -> Result<(u8, Vec<u8>), AllocError> {
    let mut shown = Setting::new(alloc);
    shown.text = text;
    run(&shown, words)
}

/// What a script prints of whether the text is valid in the logic, and what `check` writes of the certificate that a
/// second script prints.
pub fn both_lines(setting: &Setting, logic: Logic) -> Result<Vec<u8>, AllocError> {
    let alloc = setting.alloc;
    let mut asked = Setting::new(alloc);
    asked.text = script_of(setting, "provable", logic)?;
    let mut line = run_line(&asked, "run file")?;
    let (_, certificate) = run_text(alloc, script_of(setting, "certificate", logic)?, "run file")?;
    let mut shown = Setting::new(alloc);
    shown.text = certificate;
    line.extend_from_slice(&run_line(&shown, "check file")?)?;
    Ok(line)
}

// A script that prints the certificate of the setting's text, a formula, with the smallest model.
fn shrinking_script(setting: &Setting, logic: Logic) -> Result<Vec<u8>, AllocError> {
    let alloc = setting.alloc;
    let word = logic.word();
    let mut script = format!(in alloc; "print smallest(certificate({word}, ")?.into_bytes();
    script.extend_from_slice(&setting.text)?;
    script.extend_from_slice(b"));")?;
    Ok(script)
}

/// What `check` writes of what that script prints.
pub fn shrunk_line(setting: &Setting, logic: Logic) -> Result<Vec<u8>, AllocError> {
    let alloc = setting.alloc;
    let (_, certificate) = run_text(alloc, shrinking_script(setting, logic)?, "run file")?;
    let mut shown = Setting::new(alloc);
    shown.text = certificate;
    run_line(&shown, "check file")
}
