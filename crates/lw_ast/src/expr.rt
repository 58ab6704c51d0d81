ghost use Rattle.std.specs.Prelude.{◌≡◌, ◌<◌, OnOk, IfOk, Some, slice_get};
ghost use Rattle.lw_ast.specs.Trees.{put, count, add, sign_count, none, no_more};
ghost use Rattle.lw_ast.specs.ScriptViews.{expression, expressions, operands, expression_at, operand_at};

use crate::function::Function;
use crate::operator::{Op, Relation};
use lw_formula::{Chars, Joint, Logic, Name};
use std::alloc::{AllocError, Global};

/// An expression of a script. `Not` is `~`; `Deny`, `Both` and `Either` are `not`, `and` and `or`.
#[derive(Debug, Drop)]
#[cycle(expression)]
pub enum Expr {
    Number(u64),
    Text(Chars),
    Truth(bool),
    Nothing,
    Upper(Chars),
    Logic(Logic),
    Var(Name),
    Bot,
    Top,
    Not(Box<Expr>),
    Nec(Box<Expr>),
    Poss(Box<Expr>),
    Binary(Joint, Box<Expr>, Box<Expr>),
    Sum(Box<Expr>, Terms),
    Product(Box<Expr>, Terms),
    Compare(Relation, Box<Expr>, Box<Expr>),
    Deny(Box<Expr>),
    Both(Box<Expr>, Box<Expr>),
    Either(Box<Expr>, Box<Expr>),
    List(Exprs),
    Call(Function, Exprs),
}

/// Expressions: the items of a list, the arguments of a call, or what is printed.
#[derive(Debug, Drop)]
#[cycle(expression)]
pub struct Exprs {
    items: Vec<Expr>,
}

/// The further operands of a sum or a product, each with its sign.
#[derive(Debug, Drop)]
#[cycle(expression)]
pub struct Terms {
    items: Vec<(Op, Expr)>,
}

impl Exprs {
    /// No expressions.
    pub fn new(alloc: Global) -> Exprs
        ensures { expressions result ≡ none }
    {
        Exprs {
            items: Vec::new(alloc),
        }
    }

    /// One expression more, behind the others. It fails for want of memory alone.
    #[tactic(auto, using(crate::proofs::ScriptLists::expressions_out, crate::proofs::ScriptLists::expressions_roll, crate::proofs::ScriptLists::expressions_push))]
    pub fn push(&mut self, item: Expr) -> Result<(), AllocError>
        ensures { OnOk result (expressions self.new ≡ put (expressions self.old) (expression item)) }
    {
        self.items.push(item)?;
        Ok(())
    }

    /// How many expressions there are.
    #[tactic(auto, using(crate::proofs::ScriptLists::expressions_count))]
    pub fn count(&self) -> usize
        ensures { result ≡ count (expressions self.now) }
    {
        self.items.len()
    }

    /// The i-th expression, from 0.
    #[tactic(auto, using(crate::proofs::ScriptLists::expressions_out, crate::proofs::ScriptLists::expressions_count, crate::proofs::ScriptLists::expressions_in_at))]
    pub fn get(&self, i: usize) -> &Expr
        requires { i < count (expressions self.now) }
        ensures { expression_at (expressions self.now) i ≡ Some (expression result.now) }
    {
        &self.items[i]
    }
}

impl Terms {
    /// No operands.
    pub fn new(alloc: Global) -> Terms
        ensures { operands result ≡ no_more }
    {
        Terms {
            items: Vec::new(alloc),
        }
    }

    /// One operand more, behind the others, with its sign. It fails for want of memory alone.
    #[tactic(auto, using(crate::proofs::ScriptLists::operands_out, crate::proofs::ScriptLists::operands_roll, crate::proofs::ScriptLists::operands_push))]
    pub fn push(&mut self, sign: Op, item: Expr) -> Result<(), AllocError>
        ensures { OnOk result (operands self.new ≡ add (operands self.old) sign (expression item)) }
    {
        self.items.push((sign, item))?;
        Ok(())
    }

    /// How many operands there are.
    #[tactic(auto, using(crate::proofs::ScriptLists::operands_count))]
    pub fn count(&self) -> usize
        ensures { result ≡ sign_count (operands self.now) }
    {
        self.items.len()
    }

    /// The i-th operand, from 0, with its sign.
    #[tactic(auto, using(crate::proofs::ScriptLists::operands_out, crate::proofs::ScriptLists::operands_count, crate::proofs::ScriptLists::operands_in_at))]
    pub fn get(&self, i: usize) -> (Op, &Expr)
        requires { i < sign_count (operands self.now) }
        ensures { operand_at (operands self.now) i ≡ Some (result.0, expression result.1.now) }
    {
        let (sign, item) = &self.items[i];
        (*sign, item)
    }
}
