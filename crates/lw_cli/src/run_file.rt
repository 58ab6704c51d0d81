ghost use Rattle.std.specs.Prelude.{◌≡◌, ◌≤◌, ◌⊎◌, ℕ, List, length, IfOk, IsErrOf, OnErr};
ghost use Rattle.lw_io.specs.Causes.{Rose};
ghost use Rattle.lw_ast.specs.ScriptFaults.{IsScriptFaultOf};
ghost use Rattle.lw_ast.specs.ScriptViews.{statements};
ghost use Rattle.lw_eval.specs.Outputs.{Begins};
ghost use Rattle.lw_cli.specs.FileLimit.{file_limit};
ghost use Rattle.lw_cli.specs.FaultLines as fault;
ghost use Rattle.lw_cli.specs.RunOutcomes.{RunOutcome, RunBegins};
ghost use Rattle.lw_cli.specs.Private.ReportSteps.{Reports, IsShort, ScriptOutcome, IsFaultReport};

use crate::fault_line::{FILE_LIMIT_LINE, syntax_line, trouble_line};
use crate::file_limit::FILE_LIMIT;
use crate::report::{Report, ReportFault};
use lw_ast::{Script, ScriptFault, read_script};
use lw_eval::{RunFault, Trouble, run_script};
use lw_io::Sink;
use lw_pool::Pool;
use lw_value::Env;
use std::alloc::{AllocError, Global};

/// Runs the script whose text these bytes are. What it prints goes to the sink.
pub fn run_report<K: Sink>(alloc: Global, bytes: &[u8], sink: &mut K) -> Result<Report, ReportFault>
    ensures report { IfOk result (Reports (RunOutcome bytes.now) (K.written sink.old) (K.written sink.new)) }
    ensures status { IfOk result (λ report. report.status ≤ 1) }
    ensures failed { IsErrOf result ReportFault.SinkFailed →
        IsShort (RunOutcome bytes.now) (RunBegins bytes.now) (K.written sink.old) (K.written sink.new) }
    ensures cause { IsErrOf result ReportFault.SinkFailed → Rose (K.faults sink.old) (K.faults sink.new) }
    ensures memory { IsErrOf result ReportFault.Memory → (K.written sink.new ≡ K.written sink.old)
        ⊎ IsShort (RunOutcome bytes.now) (RunBegins bytes.now) (K.written sink.old) (K.written sink.new) }
    ensures later { K.faults sink.old ≤ K.faults sink.new }
{
    if bytes.len() > FILE_LIMIT {
        return Ok(limit_report(alloc)?);
    }
    match read_script(alloc, bytes) {
        Ok(script) => script_report(alloc, &script, sink),
        Err(fault) => Ok(refusal_report(alloc, bytes, fault)?),
    }
}

// What is said of a file that is too long.
fn limit_report(alloc: Global) -> Result<Report, AllocError>
    ensures { IfOk result (IsFaultReport fault.file_limit_line) }
{
    Ok(Report {
        line: Vec::from_slice(alloc, FILE_LIMIT_LINE.as_bytes())?,
        status: 1,
    })
}

// What is said of a text with this fault.
fn refusal_report(alloc: Global, bytes: &[u8], fault: ScriptFault) -> Result<Report, AllocError>
    requires short { length bytes.now ≤ file_limit }
    requires fault { IsScriptFaultOf bytes.now fault }
    ensures report { IfOk result (λ report. RunOutcome bytes.now report.line.items report.status) }
    ensures status { IfOk result (λ report. report.status ≤ 1) }
{
    match fault {
        ScriptFault::Syntax { line, column, why } => Ok(Report {
            line: syntax_line(alloc, line, column, why)?,
            status: 1,
        }),
        ScriptFault::Memory => Err(AllocError),
    }
}

// Runs the script, without variables. What it prints goes to the sink.
fn script_report<K: Sink>(
    alloc: Global,
    script: &Script,
    sink: &mut K,
) -> Result<Report, ReportFault>
    ensures report { IfOk result (Reports (ScriptOutcome (statements script.now.body)) (K.written sink.old) (K.written sink.new)) }
    ensures status { IfOk result (λ report. report.status ≤ 1) }
    ensures short { OnErr result
        (IsShort (ScriptOutcome (statements script.now.body)) (Begins (statements script.now.body))
        (K.written sink.old) (K.written sink.new)) }
    ensures cause { IsErrOf result ReportFault.SinkFailed → Rose (K.faults sink.old) (K.faults sink.new) }
    ensures later { K.faults sink.old ≤ K.faults sink.new }
{
    let mut pool = Pool::new(alloc);
    let mut env = Env::new(alloc);
    match run_script(alloc, script, &mut pool, &mut env, sink) {
        Ok(()) => Ok(Report {
            line: Vec::new(alloc),
            status: 0,
        }),
        Err(RunFault::Stopped { line, trouble }) => Ok(trouble_report(alloc, line, &trouble)?),
        Err(RunFault::SinkFailed) => Err(ReportFault::SinkFailed),
        Err(RunFault::Memory) => Err(ReportFault::Memory),
    }
}

// What is said of a run that ends at this line in this trouble.
fn trouble_report(alloc: Global, line: usize, trouble: &Trouble) -> Result<Report, AllocError>
    ensures { IfOk result (IsFaultReport (fault.trouble_line line trouble.now)) }
{
    Ok(Report {
        line: trouble_line(alloc, line, trouble)?,
        status: 1,
    })
}
