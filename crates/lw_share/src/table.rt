ghost use Rattle.std.specs.Prelude.{◌≡◌, ◌<◌, [], ◌∷◌, ◌++◌, All, length, IfOk, OnOk, OnErr};
ghost use Rattle.lw_share.specs.Lines.{CitesEarlier};
ghost use Rattle.lw_share.specs.Pooled.{line_of};

use lw_pool::SignedId;
use lw_proof::Rule;
use std::alloc::{AllocError, Global};
use std::marker::Model;

/// A proof that shares subproofs, seen as the list of its lines. The numbers of the lines are those below their count.
#[derive(Drop)]
pub struct Table {
    lines: Vec<Line>,
}

/// A set of signed formulas, the rule by which it is closed, and the lines that close the premises.
#[derive(Drop)]
struct Line {
    members: Vec<SignedId>,
    rule: Rule,
    principal: SignedId,
    cites: Vec<usize>,
}

impl Model for Line {
    ghost use Rattle.lw_pool.specs.declared.id.SignedId.{SignedId};
    ghost use Rattle.lw_share.specs.Lines as spec;

    ghost Value = { spec.Line SignedId };

    ghost view = { λ l. record { members = l.members.items; rule = l.rule; principal = l.principal; cites = l.cites.items } };
}

impl Model for Table {
    ghost use Rattle.std.specs.Prelude.{List};
    ghost use Rattle.lw_pool.specs.declared.id.SignedId.{SignedId};
    ghost use Rattle.lw_share.specs.Lines as spec;

    ghost Value = { List (spec.Line SignedId) };

    ghost view = { λ table. table.lines.items };

    ghost invariant = { λ table. spec.CitesEarlier table.lines.items };
}

impl Table {
    /// A table without lines, which has taken no memory yet.
    pub fn new(alloc: Global) -> Table
        ensures { result ≡ [] }
    {
        Table {
            lines: Vec::new(alloc),
        }
    }

    /// Puts a line behind the others, and gives its number. It fails for want of memory alone, and then the table is as
    /// before.
    pub fn add(
        &mut self,
        alloc: Global,
        set: &[SignedId],
        rule: Rule,
        principal: SignedId,
        cites: &[usize],
    ) -> Result<usize, AllocError>
        requires { All (λ c. c < length self.old) cites.now }
        ensures number { IfOk result (λ line. line ≡ length self.old) }
        ensures added { OnOk result (self.new ≡ self.old ++
            (record { members = set.now; rule = rule; principal = principal; cites = cites.now }) ∷ []) }
        ensures failed { OnErr result (self.new ≡ self.old) }
    {
        let number = self.lines.len();
        let members = Vec::from_slice(alloc, set)?;
        let cites = Vec::from_slice(alloc, cites)?;
        self.lines.push(Line {
            members,
            rule,
            principal,
            cites,
        })?;
        Ok(number)
    }

    /// How many lines there are. Each cites lines before it alone.
    pub fn count(&self) -> usize
        ensures count { result ≡ length self.now }
        ensures earlier { CitesEarlier self.now }
    {
        self.lines.len()
    }

    /// The members of the line's set.
    pub fn set(&self, line: usize) -> &[SignedId]
        requires { line < length self.now }
        ensures { result.now ≡ (line_of self.now line).members }
    {
        let line = &self.lines[line];
        &line.members
    }

    /// The numbers of the lines that the line cites, one for each premise where it holds.
    pub fn cites(&self, line: usize) -> &[usize]
        requires { line < length self.now }
        ensures { result.now ≡ (line_of self.now line).cites }
    {
        let line = &self.lines[line];
        &line.cites
    }

    /// The line's rule.
    pub fn rule(&self, line: usize) -> Rule
        requires { line < length self.now }
        ensures { result ≡ (line_of self.now line).rule }
    {
        let line = &self.lines[line];
        line.rule
    }

    /// What the line's rule is used on.
    pub fn principal(&self, line: usize) -> SignedId
        requires { line < length self.now }
        ensures { result ≡ (line_of self.now line).principal }
    {
        let line = &self.lines[line];
        line.principal
    }
}
