ghost use Rattle.std.specs.Prelude.{◌≡◌, ◌≢◌, ◌≤◌, ◌⊎◌, ◌↔◌, map, string_bytes};
ghost use Rattle.lw_io.specs.Causes.{Rose};
ghost use Rattle.lw_cli.specs.Asked.{AskNothing};
ghost use Rattle.lw_cli.specs.Headline.{AsksFor, Answers, IsCutShort, IsSureOf, IsUnsureOf, FetchesNothing};
ghost use Rattle.lw_cli.specs.Completeness.{RunsSoundScript};

use crate::carry_out::carry_out;
use crate::words::command;
use lw_ast::{one_script, one_script_answer};
use lw_io::{Sink, Store};
use std::alloc::Global;

/// Carries out the command of the words after the program's name, and answers the status with which the program ends:
///
/// - 0: the command was carried out whole;
/// - 1: the last line written says what is wrong with the file;
/// - 2: exactly where the words are no command; nothing was written;
/// - 3: the store failed to give the file, and has counted it; nothing was written;
/// - 4: the sink failed to take all of the output, and has counted it;
/// - 5: memory is wanting.
pub fn workbench<S: Store, K: Sink>(
    alloc: Global,
    words: &[String],
    store: &mut S,
    sink: &mut K,
) -> u8
    // What was written is the whole of an output that the command allows, with its status.
    ensures carried_out { (result ≡ 0) ⊎ (result ≡ 1) → AsksFor (map string_bytes words.now) (λ command.
        Answers command (S.holds store.old) (K.written sink.old) (K.written sink.new) result) }

    ensures no_command { result ≡ 2 ↔ AskNothing (map string_bytes words.now) }
    ensures nothing_written { result ≡ 2 → K.written sink.new ≡ K.written sink.old }
    ensures nothing_failed { result ≡ 2 → (S.faults store.new ≡ S.faults store.old) × (K.faults sink.new ≡ K.faults sink.old) }

    ensures store_failed { result ≡ 3 → Rose (S.faults store.old) (S.faults store.new) }
    ensures store_unsure { result ≡ 3 → AsksFor (map string_bytes words.now) (IsUnsureOf (S.sure store.old) (S.holds store.old)) }
    ensures store_unwritten { result ≡ 3 → K.written sink.new ≡ K.written sink.old }
    ensures store_untouched { AsksFor (map string_bytes words.now) FetchesNothing → store.new ≡ store.old }

    // After a fault of the sink, or without memory, what was written is a first part of such an output, or what a run of the
    // file's script has written where it was cut.
    ensures sink_failed { result ≡ 4 → Rose (K.faults sink.old) (K.faults sink.new) }
    ensures sink_part { result ≡ 4 → AsksFor (map string_bytes words.now) (λ command.
        IsCutShort command (S.holds store.old) (K.written sink.old) (K.written sink.new)) }
    ensures no_memory { result ≡ 5 → (K.written sink.new ≡ K.written sink.old)
        ⊎ AsksFor (map string_bytes words.now) (λ command.
        IsCutShort command (S.holds store.old) (K.written sink.old) (K.written sink.new)) }

    ensures no_other { result ≤ 5 }

    // Where the store is sure of the file and the sink takes all, the command is carried out, or memory is wanting.
    ensures sure { AsksFor (map string_bytes words.now) (IsSureOf (S.sure store.old) (S.holds store.old)) →
        ¬ Rose (K.faults sink.old) (K.faults sink.new) → (result ≡ 0) ⊎ ((result ≡ 1) ⊎ (result ≡ 5)) }
    // Of a script no run of which ends in a trouble, nothing is said to be wrong.
    ensures sound { AsksFor (map string_bytes words.now) (RunsSoundScript (S.holds store.old)) → result ≢ 1 }
{
    one_script();
    one_script_answer();
    match command(alloc, words) {
        Err(_) => 5,
        Ok(None) => 2,
        Ok(Some(command)) => carry_out(alloc, &command, store, sink),
    }
}
