ghost use Rattle.std.specs.Prelude.{◌≡◌, ◌≤◌, IfOk};
ghost use Rattle.lw_gen.specs.Counts.{IsSummary};
ghost use Rattle.lw_cli.specs.Asked.{IsInReach};
ghost use Rattle.lw_cli.specs.GenOutcomes as outcome;
ghost use Rattle.lw_cli.specs.GenOutcomes.{GenOutcome};

use crate::report::Report;
use lw_gen::{Summary, summary};
use lw_pool::Pool;
use std::alloc::{AllocError, Global};

/// What is to be said of the families' formulas for the numbers from 1 to this one. It fails for want of memory alone.
pub fn gen_report(alloc: Global, number: u64) -> Result<Report, AllocError>
    requires { IsInReach number }
    ensures report { IfOk result (λ report. GenOutcome number report.line.items report.status) }
    ensures status { IfOk result (λ report. report.status ≤ 1) }
{
    let counts = counts_to(alloc, number)?;
    Ok(Report {
        line: summary_line(alloc, counts)?,
        status: 0,
    })
}

// How many questions there are, and how many of them have yes for an answer, found in a pool of their own.
fn counts_to(alloc: Global, number: u64) -> Result<Summary, AllocError>
    requires { IsInReach number }
    ensures { IfOk result (IsSummary number) }
{
    let mut pool = Pool::new(alloc);
    summary(alloc, &mut pool, number)
}

// The line of the counts, with its line feed.
fn summary_line(alloc: Global, counts: Summary) -> Result<Vec<u8>, AllocError>
    ensures { IfOk result (λ line. line.items ≡ outcome.summary_line counts) }
{
    let Summary { asked, yes, no } = counts;
    Ok(format!(in alloc; "asked {asked} yes {yes} no {no}\n")?.into_bytes())
}
