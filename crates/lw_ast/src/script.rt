ghost use Rattle.std.specs.Prelude.{◌≡◌, ◌<◌, OnOk, IfOk, Some, slice_get};
ghost use Rattle.lw_ast.specs.Trees.{over, behind, statement_count};
ghost use Rattle.lw_ast.specs.ScriptViews.{statement, statements, statement_at};

use crate::expr::{Expr, Exprs};
use lw_formula::Chars;
use std::alloc::{AllocError, Global};

/// A script: the statements of its text.
#[derive(Debug, Drop)]
pub struct Script {
    pub body: Block,
}

/// A statement, and the line of its first token, from 1.
#[derive(Debug, Drop)]
#[cycle(statement)]
pub struct Stmt {
    pub line: usize,
    pub kind: StmtKind,
}

/// What a statement says: `X := E;`, `print E, .., E;`, `if`, `for X := E to E`, `for X in E` and `while`. An `if`
/// without `else` has an empty second block.
#[derive(Debug, Drop)]
#[cycle(statement)]
pub enum StmtKind {
    Assign(Chars, Expr),
    Print(Exprs),
    If(Expr, Block, Block),
    Count(Chars, Expr, Expr, Block),
    Each(Chars, Expr, Block),
    While(Expr, Block),
}

/// Statements, one after another.
#[derive(Debug, Drop)]
#[cycle(statement)]
pub struct Block {
    items: Vec<Stmt>,
}

impl Block {
    /// No statements.
    pub fn new(alloc: Global) -> Block
        ensures { statements result ≡ over }
    {
        Block {
            items: Vec::new(alloc),
        }
    }

    /// One statement more, behind the others. It fails for want of memory alone.
    #[tactic(auto, using(crate::proofs::ScriptLists::statements_out, crate::proofs::ScriptLists::statements_roll, crate::proofs::ScriptLists::statements_push))]
    pub fn push(&mut self, item: Stmt) -> Result<(), AllocError>
        ensures { OnOk result (statements self.new ≡ behind (statements self.old) (statement item)) }
    {
        self.items.push(item)?;
        Ok(())
    }

    /// How many statements there are.
    #[tactic(auto, using(crate::proofs::ScriptLists::statements_count))]
    pub fn count(&self) -> usize
        ensures { result ≡ statement_count (statements self.now) }
    {
        self.items.len()
    }

    /// The i-th statement, from 0.
    #[tactic(auto, using(crate::proofs::ScriptLists::statements_out, crate::proofs::ScriptLists::statements_count, crate::proofs::ScriptLists::statements_in_at))]
    pub fn get(&self, i: usize) -> &Stmt
        requires { i < statement_count (statements self.now) }
        ensures { statement_at (statements self.now) i ≡ Some (statement result.now) }
    {
        &self.items[i]
    }
}
