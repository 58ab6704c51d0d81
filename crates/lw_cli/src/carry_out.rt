ghost use Rattle.std.specs.Prelude.{◌≡◌, ◌≢◌, ◌≤◌, ◌+◌, ◌⊎◌, IfOk, IsErrOf};
ghost use Rattle.lw_io.specs.Causes.{Rose};
ghost use Rattle.lw_cli.specs.Commands.{Outcome, IsBegun};
ghost use Rattle.lw_cli.specs.FileLimit.{file_limit};
ghost use Rattle.lw_cli.specs.Headline.{Answers, IsCutShort, IsUnsureOf, FetchesNothing};
ghost use Rattle.lw_cli.specs.Private.AskedWords.{HasNumberInReach, IsReadPart};
ghost use Rattle.lw_cli.specs.Private.ReportSteps.{Reports, Wrote, IsShort};

use crate::asked::Command;
use crate::check_file::check_report;
use crate::file_limit::FILE_LIMIT;
use crate::gen_families::gen_report;
use crate::report::{Report, ReportFault};
use crate::run_file::run_report;
use lw_io::{FetchFault, Sink, Store};
use std::alloc::Global;

/// Carries out the command over its file, if it has one, and answers the status with which the program ends.
pub fn carry_out<S: Store, K: Sink>(
    alloc: Global,
    command: &Command,
    store: &mut S,
    sink: &mut K,
) -> u8
    requires number { HasNumberInReach command.now }
    ensures carried_out { (result ≡ 0) ⊎ (result ≡ 1) →
        Answers command.now (S.holds store.old) (K.written sink.old) (K.written sink.new) result }
    ensures no_refusal { result ≢ 2 }
    ensures store_failed { result ≡ 3 → Rose (S.faults store.old) (S.faults store.new) }
    ensures store_unsure { result ≡ 3 → IsUnsureOf (S.sure store.old) (S.holds store.old) command.now }
    ensures store_unwritten { result ≡ 3 → K.written sink.new ≡ K.written sink.old }
    ensures sink_failed { result ≡ 4 → Rose (K.faults sink.old) (K.faults sink.new) }
    ensures sink_part { result ≡ 4 → IsCutShort command.now (S.holds store.old) (K.written sink.old) (K.written sink.new) }
    ensures no_memory { result ≡ 5 → (K.written sink.new ≡ K.written sink.old)
        ⊎ IsCutShort command.now (S.holds store.old) (K.written sink.old) (K.written sink.new) }
    ensures no_other { result ≤ 5 }
    ensures untouched { FetchesNothing command.now → store.new ≡ store.old }
{
    let bytes = match input(alloc, command, store) {
        Ok(bytes) => bytes,
        Err(FetchFault::Failed) => return 3,
        Err(FetchFault::Memory) => return 5,
    };
    match answer(alloc, command, bytes.as_slice(), sink) {
        Ok(status) => status,
        Err(ReportFault::SinkFailed) => 4,
        Err(ReportFault::Memory) => 5,
    }
}

/// The first bytes of what the command reads, one more than a file may have. It reads no file for `gen`.
fn input<S: Store>(alloc: Global, command: &Command, store: &mut S) -> Result<Vec<u8>, FetchFault>
    ensures part { IfOk result (λ bytes. IsReadPart (S.holds store.old) command.now (file_limit + 1) bytes.items) }
    ensures cause { IsErrOf result FetchFault.Failed → Rose (S.faults store.old) (S.faults store.new) }
    ensures unsure { IsErrOf result FetchFault.Failed → IsUnsureOf (S.sure store.old) (S.holds store.old) command.now }
    ensures untouched { FetchesNothing command.now → store.new ≡ store.old }
{
    match command {
        Command::Run(file) | Command::Check(file) => store.fetch(alloc, file.as_str(), FILE_LIMIT),
        Command::Gen(_) => Ok(Vec::new(alloc)),
    }
}

/// Writes what the command writes over these bytes that it reads, and answers its status.
fn answer<K: Sink>(
    alloc: Global,
    command: &Command,
    bytes: &[u8],
    sink: &mut K,
) -> Result<u8, ReportFault>
    requires number { HasNumberInReach command.now }
    ensures whole { IfOk result (Wrote (Outcome command.now bytes.now) (K.written sink.old) (K.written sink.new)) }
    ensures status { IfOk result (λ status. status ≤ 1) }
    ensures failed { IsErrOf result ReportFault.SinkFailed →
        IsShort (Outcome command.now bytes.now) (IsBegun command.now bytes.now) (K.written sink.old) (K.written sink.new) }
    ensures cause { IsErrOf result ReportFault.SinkFailed → Rose (K.faults sink.old) (K.faults sink.new) }
    ensures memory { IsErrOf result ReportFault.Memory → (K.written sink.new ≡ K.written sink.old)
        ⊎ IsShort (Outcome command.now bytes.now) (IsBegun command.now bytes.now) (K.written sink.old) (K.written sink.new) }
{
    let report = match report_of(alloc, command, bytes, sink) {
        Ok(report) => report,
        Err(fault) => return Err(fault),
    };
    match report.say(sink) {
        Ok(()) => Ok(report.status),
        Err(_) => Err(ReportFault::SinkFailed),
    }
}

/// What the command has to say at its end over these bytes that it reads.
fn report_of<K: Sink>(
    alloc: Global,
    command: &Command,
    bytes: &[u8],
    sink: &mut K,
) -> Result<Report, ReportFault>
    requires number { HasNumberInReach command.now }
    ensures report { IfOk result (Reports (Outcome command.now bytes.now) (K.written sink.old) (K.written sink.new)) }
    ensures status { IfOk result (λ report. report.status ≤ 1) }
    ensures failed { IsErrOf result ReportFault.SinkFailed →
        IsShort (Outcome command.now bytes.now) (IsBegun command.now bytes.now) (K.written sink.old) (K.written sink.new) }
    ensures cause { IsErrOf result ReportFault.SinkFailed → Rose (K.faults sink.old) (K.faults sink.new) }
    ensures memory { IsErrOf result ReportFault.Memory → (K.written sink.new ≡ K.written sink.old)
        ⊎ IsShort (Outcome command.now bytes.now) (IsBegun command.now bytes.now) (K.written sink.old) (K.written sink.new) }
    ensures later { K.faults sink.old ≤ K.faults sink.new }
{
    match command {
        Command::Run(_) => run_report(alloc, bytes, sink),
        Command::Check(_) => Ok(check_report(alloc, bytes)?),
        Command::Gen(number) => Ok(gen_report(alloc, *number)?),
    }
}
