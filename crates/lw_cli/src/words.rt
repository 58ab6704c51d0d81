ghost use Rattle.std.specs.Prelude.{◌∷◌, [], ◌<◌, ◌↔◌, get_or, map, string_bytes, IfOk, OnErr, IsTrue};
ghost use Rattle.lw_cli.specs.declared.asked.Command.{Command};
ghost use Rattle.lw_cli.specs.Asked.{Ask, IsCommandOf};
ghost use Rattle.lw_cli.specs.Private.AskedWords.{IsNumberOf};

use crate::asked::{Command, FileName};
use std::alloc::{AllocError, Global};

/// The command of the words after the program's name, and `None` exactly where they are none of its shapes. There are
/// three shapes, `run FILE`, `check FILE` and `gen N`, where N is a number from 1 to 100 in decimal digits without a sign
/// or a leading zero. It fails for want of memory alone, and then the words are a command.
pub fn command(alloc: Global, words: &[String]) -> Result<Option<Command>, AllocError>
    ensures ok { IfOk result (IsCommandOf (map string_bytes words.now)) }
    ensures err { OnErr result ((command : Command) × Ask (map string_bytes words.now) command) }
{
    match words {
        [verb, word] => command_of(alloc, verb.as_str(), word.as_str()),
        _ => Ok(None),
    }
}

// The command of the verb and the word behind it, if they are one.
fn command_of(alloc: Global, verb: &str, word: &str) -> Result<Option<Command>, AllocError>
    ensures ok { IfOk result (IsCommandOf (verb.now ∷ word.now ∷ [])) }
    ensures err { OnErr result ((command : Command) × Ask (verb.now ∷ word.now ∷ []) command) }
{
    match verb {
        "run" => Ok(Some(Command::Run(FileName::from_text(alloc, word)?))),
        "check" => Ok(Some(Command::Check(FileName::from_text(alloc, word)?))),
        "gen" => Ok(number_of(word).map(Command::Gen)),
        _ => Ok(None),
    }
}

// The number from 1 to 100 that the word is in decimal digits, without a sign or a leading zero.
fn number_of(word: &str) -> Option<u64>
    ensures { IsNumberOf word.now result }
{
    if !begins_above_zero(word.as_bytes()) {
        return None;
    }
    match word.parse::<u64>() {
        Ok(number) if number <= 100 => Some(number),
        _ => None,
    }
}

// Whether the first byte stands behind `0`, as that of a number without a sign or a leading zero does.
fn begins_above_zero(word: &[u8]) -> bool
    ensures { IsTrue result ↔ 48 < get_or word.now 0 0 }
{
    match word.first() {
        Some(first) => *first > b'0',
        None => false,
    }
}
