ghost use Rattle.std.specs.Prelude.{◌≡◌, ℕ, List, Option, IsErrOf};
ghost use Rattle.lw_pool.specs.Region.{Grows};
ghost use Rattle.lw_ast.specs.Trees as tree;
ghost use Rattle.lw_ast.specs.ScriptViews.{expression};
ghost use Rattle.lw_value.specs.Evidence.{HaveEvidence};
ghost use Rattle.lw_value.specs.Assignments.{variables_seen, AreVariablesLive};
ghost use Rattle.lw_eval.specs.Runs.{Does};
ghost use Rattle.lw_eval.specs.Private.Carried.{Carries, OrCut, IsStepTaken};

use crate::at_line::value_at;
use crate::run_fault::RunFault;
use crate::trouble::Trouble;
use lw_ast::Expr;
use lw_formula::Chars;
use lw_pool::Pool;
use lw_value::Env;
use std::alloc::Global;

/// How many steps a run may take: one for each statement, and one for each turn.
const STEP_LIMIT: u64 = 1_000_000;

/// Takes a step at this line, where one is left.
pub fn step(line: usize, steps: &mut u64) -> Result<(), RunFault>
    ensures { IsStepTaken line steps.old steps.new result }
{
    if *steps >= STEP_LIMIT {
        return Err(RunFault::Stopped {
            line,
            trouble: Trouble::StepLimit,
        });
    }
    *steps += 1;
    Ok(())
}

/// Gives the variable the value of the expression.
pub fn assign(
    alloc: Global,
    line: usize,
    name: &Chars,
    expr: &Expr,
    pool: &mut Pool,
    env: &mut Env,
) -> Result<(), RunFault>
    requires live { AreVariablesLive pool.old env.old }
    requires evidence { HaveEvidence (variables_seen pool.old env.old) }
    ensures run { (k : ℕ) (w : Option (List ℕ)) → Carries (OrCut (Does line (tree.assign name.now (expression expr.now))))
        (variables_seen pool.old env.old) k (variables_seen pool.new env.new) k w w result }
    ensures live { AreVariablesLive pool.new env.new }
    ensures grows { Grows pool.old pool.new }
    ensures own { ¬ IsErrOf result RunFault.SinkFailed }
{
    match value_at(alloc, line, expr, pool, env) {
        Ok(value) => match env.set(name, value) {
            Ok(()) => Ok(()),
            Err(_) => Err(RunFault::Memory),
        },
        Err(fault) => Err(fault),
    }
}
