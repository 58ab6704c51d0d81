ghost use Rattle.std.specs.Prelude.{◌≡◌, ◌≤◌, ◌<◌, ◌+◌, ◌-◌, IsErrOf, IfOk};
ghost use Rattle.lw_pool.specs.Region.{Grows};
ghost use Rattle.lw_io.specs.Causes.{Rose};
ghost use Rattle.lw_ast.specs.Trees as tree;
ghost use Rattle.lw_ast.specs.ScriptViews.{expression, statement, statements, kind};
ghost use Rattle.lw_value.specs.Values.{vals, seen_all, AreItemsLive};
ghost use Rattle.lw_value.specs.Evidence.{HasEvidence, HaveEvidence};
ghost use Rattle.lw_value.specs.Assignments.{put, variables_seen, AreVariablesLive};
ghost use Rattle.lw_eval.specs.Runs.{step_limit, Step, With, Turns, Repeats, Choice, Bounds, Does, DoesStep, Run, numbers_from};
ghost use Rattle.lw_eval.specs.Ran.{Ran};
ghost use Rattle.lw_eval.specs.Private.Given.{IsLiveIn, shown_in};
ghost use Rattle.lw_eval.specs.Private.Carried.{Condition, ListOf, Carries, OrCut, HaveItemsEvidence};

use crate::at_line::{bounds_at, list_at, test_at};
use crate::print::print;
use crate::run_fault::RunFault;
use crate::step::{assign, step};
use lw_ast::{Block, Expr, Script, Stmt, StmtKind};
use lw_formula::Chars;
use lw_io::Sink;
use lw_pool::Pool;
use lw_value::{Env, Items, Value};
use std::alloc::Global;

/// Carries out the script with these variables, from no steps, and writes to the sink what its print statements print.
/// `Stopped` comes with the trouble that ends the run, at the line of the statement that was at work, from 1. `SinkFailed`
/// comes where the sink failed to take a piece of what was printed, and `Memory` for want of memory: the run was cut then.
/// After each of them the variables and what was written are those of the run up to there. A print statement leaves no
/// formulas in the pool.
pub fn run_script<K: Sink>(
    alloc: Global,
    script: &Script,
    pool: &mut Pool,
    env: &mut Env,
    sink: &mut K,
) -> Result<(), RunFault>
    requires live { AreVariablesLive pool.old env.old }
    requires evidence { HaveEvidence (variables_seen pool.old env.old) }
    ensures run { Ran (Run (statements script.now.body)) (variables_seen pool.old env.old) (variables_seen pool.new env.new)
        (K.written sink.old) (K.written sink.new) result }
    ensures live { AreVariablesLive pool.new env.new }
    ensures evidence { HaveEvidence (variables_seen pool.new env.new) }
    ensures grows { Grows pool.old pool.new }
    ensures cause { IsErrOf result RunFault.SinkFailed → Rose (K.faults sink.old) (K.faults sink.new) }
    ensures later { K.faults sink.old ≤ K.faults sink.new }
{
    let mut steps = 0;
    run_block(alloc, &script.body, pool, env, sink, &mut steps)
}

/// Carries out the statements.
#[cycle(run)]
fn run_block<K: Sink>(
    alloc: Global,
    block: &Block,
    pool: &mut Pool,
    env: &mut Env,
    sink: &mut K,
    steps: &mut u64,
) -> Result<(), RunFault>
    requires live { AreVariablesLive pool.old env.old }
    requires evidence { HaveEvidence (variables_seen pool.old env.old) }
    requires steps { steps.old ≤ step_limit }
    ensures run { Carries (Run (statements block.now))
        (variables_seen pool.old env.old) steps.old (variables_seen pool.new env.new) steps.new
        (K.written sink.old) (K.written sink.new) result }
    ensures live { AreVariablesLive pool.new env.new }
    ensures grows { Grows pool.old pool.new }
    ensures steps { steps.new ≤ step_limit }
    ensures more { steps.old ≤ steps.new }
    ensures cause { IsErrOf result RunFault.SinkFailed → Rose (K.faults sink.old) (K.faults sink.new) }
    ensures later { K.faults sink.old ≤ K.faults sink.new }
{
    for i in 0..block.count() {
        match run_stmt(alloc, block.get(i), pool, env, sink, steps) {
            Ok(()) => {}
            Err(fault) => return Err(fault),
        }
    }
    Ok(())
}

/// Takes a step, and does what the statement says.
#[cycle(run)]
fn run_stmt<K: Sink>(
    alloc: Global,
    stmt: &Stmt,
    pool: &mut Pool,
    env: &mut Env,
    sink: &mut K,
    steps: &mut u64,
) -> Result<(), RunFault>
    requires live { AreVariablesLive pool.old env.old }
    requires evidence { HaveEvidence (variables_seen pool.old env.old) }
    requires steps { steps.old ≤ step_limit }
    ensures run { Carries (DoesStep (statement stmt.now))
        (variables_seen pool.old env.old) steps.old (variables_seen pool.new env.new) steps.new
        (K.written sink.old) (K.written sink.new) result }
    ensures live { AreVariablesLive pool.new env.new }
    ensures grows { Grows pool.old pool.new }
    ensures steps { steps.new ≤ step_limit }
    ensures more { steps.old ≤ steps.new }
    ensures cause { IsErrOf result RunFault.SinkFailed → Rose (K.faults sink.old) (K.faults sink.new) }
    ensures later { K.faults sink.old ≤ K.faults sink.new }
{
    match step(stmt.line, steps) {
        Ok(()) => do_stmt(alloc, stmt.line, &stmt.kind, pool, env, sink, steps),
        Err(fault) => Err(fault),
    }
}

/// Does what the statement at this line says.
#[cycle(run)]
fn do_stmt<K: Sink>(
    alloc: Global,
    line: usize,
    stmt: &StmtKind,
    pool: &mut Pool,
    env: &mut Env,
    sink: &mut K,
    steps: &mut u64,
) -> Result<(), RunFault>
    requires live { AreVariablesLive pool.old env.old }
    requires evidence { HaveEvidence (variables_seen pool.old env.old) }
    requires steps { steps.old ≤ step_limit }
    ensures run { Carries (OrCut (Does line (kind stmt.now)))
        (variables_seen pool.old env.old) steps.old (variables_seen pool.new env.new) steps.new
        (K.written sink.old) (K.written sink.new) result }
    ensures live { AreVariablesLive pool.new env.new }
    ensures grows { Grows pool.old pool.new }
    ensures steps { steps.new ≤ step_limit }
    ensures more { steps.old ≤ steps.new }
    ensures cause { IsErrOf result RunFault.SinkFailed → Rose (K.faults sink.old) (K.faults sink.new) }
    ensures later { K.faults sink.old ≤ K.faults sink.new }
{
    match stmt {
        StmtKind::Assign(name, value) => assign(alloc, line, name, value, pool, env),
        StmtKind::Print(values) => print(alloc, line, values, pool, env, sink),
        StmtKind::If(test, first, second) => {
            choose(alloc, line, test, first, second, pool, env, sink, steps)
        }
        StmtKind::Count(name, from, to, body) => {
            count_up(alloc, line, name, from, to, body, pool, env, sink, steps)
        }
        StmtKind::Each(name, list, body) => {
            each(alloc, line, name, list, body, pool, env, sink, steps)
        }
        StmtKind::While(test, body) => repeat(alloc, line, test, body, pool, env, sink, steps),
    }
}

/// Carries out the first block where the condition is yes, else the second.
#[cycle(run)]
fn choose<K: Sink>(
    alloc: Global,
    line: usize,
    test: &Expr,
    first: &Block,
    second: &Block,
    pool: &mut Pool,
    env: &mut Env,
    sink: &mut K,
    steps: &mut u64,
) -> Result<(), RunFault>
    requires live { AreVariablesLive pool.old env.old }
    requires evidence { HaveEvidence (variables_seen pool.old env.old) }
    requires steps { steps.old ≤ step_limit }
    ensures run { Carries (OrCut (Does line (tree.choose (expression test.now) (statements first.now) (statements second.now))))
        (variables_seen pool.old env.old) steps.old (variables_seen pool.new env.new) steps.new
        (K.written sink.old) (K.written sink.new) result }
    ensures live { AreVariablesLive pool.new env.new }
    ensures grows { Grows pool.old pool.new }
    ensures steps { steps.new ≤ step_limit }
    ensures more { steps.old ≤ steps.new }
    ensures cause { IsErrOf result RunFault.SinkFailed → Rose (K.faults sink.old) (K.faults sink.new) }
    ensures later { K.faults sink.old ≤ K.faults sink.new }
{
    match test_at(alloc, line, test, pool, env) {
        Ok(true) => run_block(alloc, first, pool, env, sink, steps),
        Ok(false) => run_block(alloc, second, pool, env, sink, steps),
        Err(fault) => Err(fault),
    }
}

/// Takes a turn for each number from the one to the other.
#[cycle(run)]
fn count_up<K: Sink>(
    alloc: Global,
    line: usize,
    name: &Chars,
    from: &Expr,
    to: &Expr,
    body: &Block,
    pool: &mut Pool,
    env: &mut Env,
    sink: &mut K,
    steps: &mut u64,
) -> Result<(), RunFault>
    requires live { AreVariablesLive pool.old env.old }
    requires evidence { HaveEvidence (variables_seen pool.old env.old) }
    requires steps { steps.old ≤ step_limit }
    ensures run { Carries (OrCut (Does line (tree.count_up name.now (expression from.now) (expression to.now) (statements body.now))))
        (variables_seen pool.old env.old) steps.old (variables_seen pool.new env.new) steps.new
        (K.written sink.old) (K.written sink.new) result }
    ensures live { AreVariablesLive pool.new env.new }
    ensures grows { Grows pool.old pool.new }
    ensures steps { steps.new ≤ step_limit }
    ensures more { steps.old ≤ steps.new }
    ensures cause { IsErrOf result RunFault.SinkFailed → Rose (K.faults sink.old) (K.faults sink.new) }
    ensures later { K.faults sink.old ≤ K.faults sink.new }
{
    match bounds_at(alloc, line, from, to, pool, env) {
        Ok((from, to)) => turns_to(alloc, line, name, from, to, body, pool, env, sink, steps),
        Err(fault) => Err(fault),
    }
}

/// Takes a turn for each number from the one to the other. The last turn stands by itself, since its number may be the
/// greatest.
#[cycle(run)]
fn turns_to<K: Sink>(
    alloc: Global,
    line: usize,
    name: &Chars,
    from: u64,
    to: u64,
    body: &Block,
    pool: &mut Pool,
    env: &mut Env,
    sink: &mut K,
    steps: &mut u64,
) -> Result<(), RunFault>
    requires live { AreVariablesLive pool.old env.old }
    requires evidence { HaveEvidence (variables_seen pool.old env.old) }
    requires steps { steps.old ≤ step_limit }
    ensures run { Carries (Turns line name.now (Run (statements body.now)) (numbers_from from (to + 1 - from)))
        (variables_seen pool.old env.old) steps.old (variables_seen pool.new env.new) steps.new
        (K.written sink.old) (K.written sink.new) result }
    ensures live { AreVariablesLive pool.new env.new }
    ensures grows { Grows pool.old pool.new }
    ensures steps { steps.new ≤ step_limit }
    ensures more { steps.old ≤ steps.new }
    ensures cause { IsErrOf result RunFault.SinkFailed → Rose (K.faults sink.old) (K.faults sink.new) }
    ensures later { K.faults sink.old ≤ K.faults sink.new }
{
    if to < from {
        return Ok(());
    }
    for number in from..to {
        match turn(
            alloc,
            line,
            name,
            Value::Number(number),
            body,
            pool,
            env,
            sink,
            steps,
        ) {
            Ok(()) => {}
            Err(fault) => return Err(fault),
        }
    }
    turn(
        alloc,
        line,
        name,
        Value::Number(to),
        body,
        pool,
        env,
        sink,
        steps,
    )
}

/// Takes a turn for each item of the list that the expression comes to.
#[cycle(run)]
fn each<K: Sink>(
    alloc: Global,
    line: usize,
    name: &Chars,
    list: &Expr,
    body: &Block,
    pool: &mut Pool,
    env: &mut Env,
    sink: &mut K,
    steps: &mut u64,
) -> Result<(), RunFault>
    requires live { AreVariablesLive pool.old env.old }
    requires evidence { HaveEvidence (variables_seen pool.old env.old) }
    requires steps { steps.old ≤ step_limit }
    ensures run { Carries (OrCut (Does line (tree.each name.now (expression list.now) (statements body.now))))
        (variables_seen pool.old env.old) steps.old (variables_seen pool.new env.new) steps.new
        (K.written sink.old) (K.written sink.new) result }
    ensures live { AreVariablesLive pool.new env.new }
    ensures grows { Grows pool.old pool.new }
    ensures steps { steps.new ≤ step_limit }
    ensures more { steps.old ≤ steps.new }
    ensures cause { IsErrOf result RunFault.SinkFailed → Rose (K.faults sink.old) (K.faults sink.new) }
    ensures later { K.faults sink.old ≤ K.faults sink.new }
{
    match list_at(alloc, line, list, pool, env) {
        Ok(items) => turns_of(alloc, line, name, &items, body, pool, env, sink, steps),
        Err(fault) => Err(fault),
    }
}

/// Takes a turn for each of the items.
#[cycle(run)]
fn turns_of<K: Sink>(
    alloc: Global,
    line: usize,
    name: &Chars,
    items: &Items,
    body: &Block,
    pool: &mut Pool,
    env: &mut Env,
    sink: &mut K,
    steps: &mut u64,
) -> Result<(), RunFault>
    requires live { AreVariablesLive pool.old env.old }
    requires evidence { HaveEvidence (variables_seen pool.old env.old) }
    requires steps { steps.old ≤ step_limit }
    requires items_live { AreItemsLive pool.old (vals items.now) }
    requires items_evidence { HaveItemsEvidence (seen_all pool.old (vals items.now)) }
    ensures run { Carries (Turns line name.now (Run (statements body.now)) (seen_all pool.old (vals items.now)))
        (variables_seen pool.old env.old) steps.old (variables_seen pool.new env.new) steps.new
        (K.written sink.old) (K.written sink.new) result }
    ensures live { AreVariablesLive pool.new env.new }
    ensures grows { Grows pool.old pool.new }
    ensures steps { steps.new ≤ step_limit }
    ensures more { steps.old ≤ steps.new }
    ensures cause { IsErrOf result RunFault.SinkFailed → Rose (K.faults sink.old) (K.faults sink.new) }
    ensures later { K.faults sink.old ≤ K.faults sink.new }
{
    for i in 0..items.count() {
        let Ok(item) = items.get(i).try_clone() else {
            return Err(RunFault::Memory);
        };
        match turn(alloc, line, name, item, body, pool, env, sink, steps) {
            Ok(()) => {}
            Err(fault) => return Err(fault),
        }
    }
    Ok(())
}

/// Takes turns for as long as the condition is yes.
#[cycle(run)]
fn repeat<K: Sink>(
    alloc: Global,
    line: usize,
    test: &Expr,
    body: &Block,
    pool: &mut Pool,
    env: &mut Env,
    sink: &mut K,
    steps: &mut u64,
) -> Result<(), RunFault>
    requires live { AreVariablesLive pool.old env.old }
    requires evidence { HaveEvidence (variables_seen pool.old env.old) }
    requires steps { steps.old ≤ step_limit }
    ensures run { Carries (Does line (tree.repeat (expression test.now) (statements body.now)))
        (variables_seen pool.old env.old) steps.old (variables_seen pool.new env.new) steps.new
        (K.written sink.old) (K.written sink.new) result }
    ensures live { AreVariablesLive pool.new env.new }
    ensures grows { Grows pool.old pool.new }
    ensures steps { steps.new ≤ step_limit }
    ensures more { steps.old ≤ steps.new }
    ensures cause { IsErrOf result RunFault.SinkFailed → Rose (K.faults sink.old) (K.faults sink.new) }
    ensures later { K.faults sink.old ≤ K.faults sink.new }
{
    'turns: loop {
        match test_at(alloc, line, test, pool, env) {
            Ok(true) => {}
            Ok(false) => return Ok(()),
            Err(fault) => return Err(fault),
        }
        match step(line, steps) {
            Ok(()) => {}
            Err(fault) => return Err(fault),
        }
        match run_block(alloc, body, pool, env, sink, steps) {
            Ok(()) => {}
            Err(fault) => return Err(fault),
        }
    }
}

/// Takes a step, gives the variable the value, and carries out the body.
#[cycle(run)]
fn turn<K: Sink>(
    alloc: Global,
    line: usize,
    name: &Chars,
    value: Value,
    body: &Block,
    pool: &mut Pool,
    env: &mut Env,
    sink: &mut K,
    steps: &mut u64,
) -> Result<(), RunFault>
    requires live { AreVariablesLive pool.old env.old }
    requires evidence { HaveEvidence (variables_seen pool.old env.old) }
    requires steps { steps.old ≤ step_limit }
    requires value_live { IsLiveIn pool.old value }
    requires value_evidence { HasEvidence (shown_in pool.old value) }
    ensures run { Carries (Step line (λ env. Run (statements body.now) (put env name.now (shown_in pool.old value))))
        (variables_seen pool.old env.old) steps.old (variables_seen pool.new env.new) steps.new
        (K.written sink.old) (K.written sink.new) result }
    ensures live { AreVariablesLive pool.new env.new }
    ensures grows { Grows pool.old pool.new }
    ensures steps { steps.new ≤ step_limit }
    ensures more { steps.old ≤ steps.new }
    ensures cause { IsErrOf result RunFault.SinkFailed → Rose (K.faults sink.old) (K.faults sink.new) }
    ensures later { K.faults sink.old ≤ K.faults sink.new }
{
    match step(line, steps) {
        Ok(()) => {}
        Err(fault) => return Err(fault),
    }
    match env.set(name, value) {
        Ok(()) => run_block(alloc, body, pool, env, sink, steps),
        Err(_) => Err(RunFault::Memory),
    }
}
