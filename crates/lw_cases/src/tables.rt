//! Cases on shared proofs: the table of the text's proof, and what the judge of tables says of it.

ghost use Rattle.std.specs.Prelude.{◌<◌, ◌↔◌, length, All, IfOk, IsTrue};
ghost use Rattle.lw_pool.specs.Region.{IsLive, Grows, tree_at};
ghost use Rattle.lw_proof.specs.Derivation.{Proves};
ghost use Rattle.lw_proof.specs.Pooled.{proof_at, IsProofLive};
ghost use Rattle.lw_sets.specs.IdSets.{AreLive};
ghost use Rattle.lw_share.specs.Pooled.{IsTableLive};
ghost use Rattle.lw_cert.specs.Sheet.{Sheet};
ghost use Rattle.lw_cert.specs.Certificates.{IsSheetOf};

use crate::formulas::entered;
use crate::unanswered::Unanswered;
use lw_cert::{Body, Certificate, read_certificate};
use lw_check::{Verdict, check};
use lw_formula::{Logic, Sign};
use lw_pool::{FormId, Pool, SignedId};
use lw_proof::{Proof, Rule};
use lw_share::{SharedVerdict, Table, check_shared, share};
use std::alloc::{AllocError, Global};

/// How many steps the text's proof has and how many lines its table, the verdict on the table, and the verdict on the
/// same table with F q in the set of its root.
pub fn table_line(alloc: Global, text: &[u8]) -> Result<String, Unanswered> {
    let mut pool = Pool::new(alloc);
    let certificate = read_certificate(alloc, &mut pool, text)?;
    of_certificate(alloc, &mut pool, &certificate)
}

fn of_certificate(
    alloc: Global,
    pool: &mut Pool,
    certificate: &Certificate,
) -> Result<String, Unanswered>
    requires { (sheet : Sheet) × IsSheetOf pool.old certificate.now sheet }
{
    let (logic, goal) = (certificate.logic, certificate.formula);
    match &certificate.body {
        Body::Proved(proof) => of_proof(alloc, pool, logic, goal, proof),
        Body::Refuted(..) => Err(Unanswered),
    }
}

// Of a proof that the judge accepts.
fn of_proof(
    alloc: Global,
    pool: &mut Pool,
    logic: Logic,
    goal: FormId,
    proof: &Proof,
) -> Result<String, Unanswered>
    requires goal { IsLive pool.old goal }
    requires proof { IsProofLive pool.old proof.now }
{
    match check(alloc, pool, logic, goal, proof)? {
        Verdict::Accepted => of_accepted(alloc, pool, logic, goal, proof),
        Verdict::Rejected { .. } => Err(Unanswered),
    }
}

fn of_accepted(
    alloc: Global,
    pool: &mut Pool,
    logic: Logic,
    goal: FormId,
    proof: &Proof,
) -> Result<String, Unanswered>
    requires goal { IsLive pool.old goal }
    requires proof { IsProofLive pool.old proof.now }
    requires proved { Proves logic (proof_at pool.old proof.now) (tree_at pool.old goal) }
{
    let (table, root) = share(alloc, pool, logic, goal, proof)?;
    let verdicts = both_verdicts(alloc, pool, logic, goal, &table, root)?;
    let (steps, lines) = (proof.lines(), table.count());
    Ok(format!(in alloc; "{steps} steps, {lines} lines: {verdicts}")?)
}

// The verdicts on the table, and on the same one with F q in the set of its root.
#[tactic(auto, using(crate::proofs::LiveTables::table_live_grows))]
fn both_verdicts(
    alloc: Global,
    pool: &mut Pool,
    logic: Logic,
    goal: FormId,
    table: &Table,
    root: usize,
) -> Result<String, Unanswered>
    requires goal { IsLive pool.old goal }
    requires table { IsTableLive pool.old table.now }
{
    let more = SignedId {
        sign: Sign::F,
        form: entered(alloc, pool, b"q")?,
    };
    let wider = widened(alloc, pool, table, root, more)?;
    let first = verdict_on(alloc, pool, logic, goal, table, root)?;
    let second = verdict_on(alloc, pool, logic, goal, &wider, root)?;
    Ok(format!(in alloc; "{first}, with F q at the root {second}")?)
}

// What the judge of tables says.
fn verdict_on(
    alloc: Global,
    pool: &mut Pool,
    logic: Logic,
    goal: FormId,
    table: &Table,
    root: usize,
) -> Result<String, Unanswered>
    requires goal { IsLive pool.old goal }
    requires table { IsTableLive pool.old table.now }
    ensures { Grows pool.old pool.new }
{
    if root >= table.count() {
        return Err(Unanswered);
    }
    match check_shared(alloc, pool, logic, goal, table, root)? {
        SharedVerdict::Accepted => Ok(String::from_str(alloc, "accepted")?),
        SharedVerdict::Rejected { line } => Ok(format!(in alloc; "rejected at {line}")?),
    }
}

// The table with one more member in the set of this line.
#[tactic(auto, using(crate::proofs::LiveTables::line_live))]
fn widened(
    alloc: Global,
    pool: &Pool,
    table: &Table,
    at: usize,
    more: SignedId,
) -> Result<Table, Unanswered>
    requires table { IsTableLive pool.now table.now }
    requires more { IsLive pool.now more.form }
    ensures { IfOk result (IsTableLive pool.now) }
{
    let mut wider = Table::new(alloc);
    for line in 0..table.count() {
        let set = members(alloc, pool, table.set(line), more, line == at)?;
        let (rule, principal) = (table.rule(line), table.principal(line));
        add(
            alloc,
            pool,
            &mut wider,
            &set,
            rule,
            principal,
            table.cites(line),
        )?;
    }
    Ok(wider)
}

// The members of a set, and one more where it is wanted.
#[tactic(auto, using(crate::proofs::LiveTables::member_live))]
fn members(
    alloc: Global,
    pool: &Pool,
    set: &[SignedId],
    more: SignedId,
    wanted: bool,
) -> Result<Vec<SignedId>, AllocError>
    requires set { AreLive pool.now set.now }
    requires more { IsLive pool.now more.form }
    ensures { IfOk result (λ members. AreLive pool.now members.items) }
{
    let mut members = Vec::from_slice(alloc, set)?;
    if !wanted {
        return Ok(members);
    }
    members.push(more)?;
    Ok(members)
}

// Puts the line behind the others, if the lines that it cites are there.
#[tactic(auto, using(crate::proofs::LiveTables::last_live))]
fn add(
    alloc: Global,
    pool: &Pool,
    table: &mut Table,
    set: &[SignedId],
    rule: Rule,
    principal: SignedId,
    cites: &[usize],
) -> Result<(), Unanswered>
    requires table { IsTableLive pool.now table.old }
    requires set { AreLive pool.now set.now }
    requires principal { IsLive pool.now principal.form }
    ensures { IfOk result (λ done. IsTableLive pool.now table.new) }
{
    if !are_below(cites, table.count()) {
        return Err(Unanswered);
    }
    table.add(alloc, set, rule, principal, cites)?;
    Ok(())
}

// Whether each of the numbers is below the count.
fn are_below(numbers: &[usize], count: usize) -> bool
    ensures { IsTrue result ↔ All (λ n. n < count) numbers.now }
{
    numbers.iter().all(|number| *number < count)
}
