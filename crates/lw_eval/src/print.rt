ghost use Rattle.std.specs.Prelude.{◌≡◌, ◌≢◌, ◌+◌, ◌-◌, ◌≤◌, ◌<◌, ℕ, length, slice_index, OnOk, OnErr, IsErrOf};
ghost use Rattle.lw_formula.specs.Formula.{Formula};
ghost use Rattle.lw_pool.specs.Region.{Grows};
ghost use Rattle.lw_io.specs.Causes.{Rose};
ghost use Rattle.lw_io.specs.Output.{Adds, AddsPart};
ghost use Rattle.lw_ast.specs.Trees as tree;
ghost use Rattle.lw_ast.specs.ScriptViews.{expressions};
ghost use Rattle.lw_value.specs.Evidence.{HaveEvidence, HaveWorlds};
ghost use Rattle.lw_value.specs.Assignments.{variables_seen, AreVariablesLive};
ghost use Rattle.lw_value.specs.Views.{values_of};
ghost use Rattle.lw_eval.specs.Expressions.{Variables};
ghost use Rattle.lw_eval.specs.Runs.{Does, Prints};
ghost use Rattle.lw_eval.specs.Private.Given.{AreLiveIn, all_shown_in};
ghost use Rattle.lw_eval.specs.Private.Carried.{Carries, OrCut};

use crate::at_line::at_line;
use crate::eval::eval_all;
use crate::run_fault::RunFault;
use crate::trouble::Trouble;
use lw_ast::Exprs;
use lw_io::{Failed, Sink};
use lw_pool::Pool;
use lw_read::LONGEST_TEXT;
use lw_value::{Env, Value, line_text, measured_line};
use std::alloc::Global;

/// Writes the line of what the expressions come to. The pool is left as it was found.
pub fn print<K: Sink>(
    alloc: Global,
    line: usize,
    exprs: &Exprs,
    pool: &mut Pool,
    env: &Env,
    sink: &mut K,
) -> Result<(), RunFault>
    requires live { AreVariablesLive pool.old env.now }
    requires evidence { HaveEvidence (variables_seen pool.old env.now) }
    ensures run { (k : ℕ) → Carries (OrCut (Does line (tree.print (expressions exprs.now))))
        (variables_seen pool.old env.now) k (variables_seen pool.old env.now) k (K.written sink.old) (K.written sink.new) result }
    ensures same { pool.new ≡ pool.old }
    ensures cause { IsErrOf result RunFault.SinkFailed → Rose (K.faults sink.old) (K.faults sink.new) }
    ensures later { K.faults sink.old ≤ K.faults sink.new }
{
    let mark = pool.mark();
    let answer = print_values(alloc, line, exprs, pool, env, sink);
    pool.release(mark);
    answer
}

/// Writes the line of what the expressions come to.
fn print_values<K: Sink>(
    alloc: Global,
    line: usize,
    exprs: &Exprs,
    pool: &mut Pool,
    env: &Env,
    sink: &mut K,
) -> Result<(), RunFault>
    requires live { AreVariablesLive pool.old env.now }
    requires evidence { HaveEvidence (variables_seen pool.old env.now) }
    ensures run { (k : ℕ) → Carries (OrCut (Does line (tree.print (expressions exprs.now))))
        (variables_seen pool.old env.now) k (variables_seen pool.old env.now) k (K.written sink.old) (K.written sink.new) result }
    ensures grows { Grows pool.old pool.new }
    ensures cause { IsErrOf result RunFault.SinkFailed → Rose (K.faults sink.old) (K.faults sink.new) }
    ensures later { K.faults sink.old ≤ K.faults sink.new }
{
    match eval_all(alloc, exprs, pool, env) {
        Ok(values) => write_line(alloc, line, values.as_slice(), pool, sink),
        Err(fault) => Err(at_line(line, fault)),
    }
}

/// Writes the line of the values, where it isn't too long.
fn write_line<K: Sink>(
    alloc: Global,
    line: usize,
    values: &[Value],
    pool: &Pool,
    sink: &mut K,
) -> Result<(), RunFault>
    requires live { AreLiveIn pool.now values.now }
    requires worlds { HaveWorlds (values_of values.now) }
    ensures run { (env : Variables) (k : ℕ) → Carries (OrCut (Prints line (all_shown_in pool.now values.now)))
        env k env k (K.written sink.old) (K.written sink.new) result }
    ensures cause { IsErrOf result RunFault.SinkFailed → Rose (K.faults sink.old) (K.faults sink.new) }
    ensures later { K.faults sink.old ≤ K.faults sink.new }
{
    let Ok(measure) = measured_line(alloc, pool, values) else {
        return Err(RunFault::Memory);
    };
    if measure > LONGEST_TEXT {
        return Err(RunFault::Stopped {
            line,
            trouble: Trouble::TextLimit,
        });
    }
    let Ok(text) = line_text(alloc, pool, values) else {
        return Err(RunFault::Memory);
    };
    match write_text(sink, text.as_slice()) {
        Ok(()) => Ok(()),
        Err(_) => Err(RunFault::SinkFailed),
    }
}

/// Writes the text line by line: what a write is given ends with the first line feed in it, or with the text.
fn write_text<K: Sink>(sink: &mut K, text: &[u8]) -> Result<(), Failed>
    ensures whole { OnOk result (Adds (K.written sink.old) (K.written sink.new) text.now) }
    ensures part { OnErr result (AddsPart (K.written sink.old) (K.written sink.new) text.now) }
    ensures cause { OnErr result (Rose (K.faults sink.old) (K.faults sink.new)) }
    ensures later { K.faults sink.old ≤ K.faults sink.new }
{
    let mut at = 0;
    while at < text.len() {
        let end = line_end(text, at);
        if let Err(failed) = sink.write(&text[at..end]) {
            return Err(failed);
        }
        at = end;
    }
    Ok(())
}

/// Where the line that begins at this byte ends, behind its line feed.
fn line_end(text: &[u8], at: usize) -> usize
    requires { at < length text.now }
    ensures behind { at < result }
    ensures within { result ≤ length text.now }
    ensures line { (k : ℕ) → at ≤ k → k + 1 < result → slice_index text.now k ≢ 10 }
    ensures feed { result < length text.now → slice_index text.now (result - 1) ≡ 10 }
{
    for i in at..text.len() {
        if text[i] == b'\n' {
            return i + 1;
        }
    }
    text.len()
}
