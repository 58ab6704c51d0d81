ghost use Rattle.std.specs.Prelude.{◌≡◌, IfOk};
ghost use Rattle.lw_ast.specs.Trees.{Expression, prefixed, linked, chained};
ghost use Rattle.lw_ast.specs.ScriptGrammar.{link_level, chain_level};
ghost use Rattle.lw_ast.specs.ScriptViews.{expression, operands};
ghost use Rattle.lw_ast.specs.Private.ScriptMachine.{Frame, script_constructs};
ghost use Rattle.lw_ast.specs.Private.ReaderViews.{frame};

use crate::expr::{Expr, Exprs, Terms};
use crate::function::Function;
use crate::operator::{Link, Op, Prefix, Relation, Series};
use lw_formula::Joint;
use lw_read::Construct;
use std::alloc::{AllocError, Global};

/// A construct of an expression that waits for its end.
#[derive(Drop)]
pub enum Unfinished {
    Prefixed(Prefix),
    Denied,
    Left(Link, Expr),
    Compared(Relation, Expr),
    Linked(Series, Expr, Terms, Op),
    Bracket,
    Listed(Exprs),
    Called(Function, Exprs),
}

/// The level of the grammar at which the link stands: 1 for `or` to 8 for `&`.
pub fn link_level(link: Link) -> u8
    ensures { result ≡ link_level link }
{
    match link {
        Link::Either => 1,
        Link::Both => 2,
        Link::Binary(Joint::Iff) => 5,
        Link::Binary(Joint::Imp) => 6,
        Link::Binary(Joint::Or) => 7,
        Link::Binary(Joint::And) => 8,
    }
}

/// That of sums and of products.
pub fn series_level(series: Series) -> u8
    ensures { result ≡ chain_level series }
{
    match series {
        Series::Sum => 9,
        Series::Product => 10,
    }
}

// The expression of the sign and its operand.
fn applied(alloc: Global, sign: Prefix, operand: Expr) -> Result<Expr, AllocError>
    ensures { IfOk result (λ made. expression made ≡ prefixed sign (expression operand)) }
{
    let operand = Box::new(alloc, operand)?;
    Ok(match sign {
        Prefix::Not => Expr::Not(operand),
        Prefix::Nec => Expr::Nec(operand),
        Prefix::Poss => Expr::Poss(operand),
    })
}

// The expression of the link and its operands.
fn joined(alloc: Global, link: Link, left: Expr, right: Expr) -> Result<Expr, AllocError>
    ensures { IfOk result (λ made. expression made ≡ linked link (expression left) (expression right)) }
{
    let left = Box::new(alloc, left)?;
    let right = Box::new(alloc, right)?;
    Ok(match link {
        Link::Either => Expr::Either(left, right),
        Link::Both => Expr::Both(left, right),
        Link::Binary(joint) => Expr::Binary(joint, left, right),
    })
}

// The sum or the product of these operands.
fn summed(alloc: Global, series: Series, first: Expr, terms: Terms) -> Result<Expr, AllocError>
    ensures { IfOk result (λ made. expression made ≡ chained series (expression first) (operands terms)) }
{
    let first = Box::new(alloc, first)?;
    Ok(match series {
        Series::Sum => Expr::Sum(first, terms),
        Series::Product => Expr::Product(first, terms),
    })
}

impl Construct for Unfinished {
    type Tree = Expr;

    ghost Frame = { Frame };

    ghost Parsed = { Expression };

    ghost constructs = { script_constructs };

    ghost frame = { frame };

    ghost parsed = { expression };

    fn level(&self) -> u8 {
        match self {
            Unfinished::Prefixed(_) => 11,
            Unfinished::Denied => 3,
            Unfinished::Left(link, _) => link_level(*link),
            Unfinished::Compared(_, _) => 4,
            Unfinished::Linked(series, _, _, _) => series_level(*series),
            Unfinished::Bracket | Unfinished::Listed(_) | Unfinished::Called(_, _) => 0,
        }
    }

    fn finish(self, alloc: Global, operand: Expr) -> Result<Expr, AllocError> {
        match self {
            Unfinished::Prefixed(sign) => applied(alloc, sign, operand),
            Unfinished::Denied => Ok(Expr::Deny(Box::new(alloc, operand)?)),
            Unfinished::Left(link, left) => joined(alloc, link, left, operand),
            Unfinished::Compared(relation, left) => {
                let left = Box::new(alloc, left)?;
                let right = Box::new(alloc, operand)?;
                Ok(Expr::Compare(relation, left, right))
            }
            Unfinished::Linked(series, first, terms, sign) => {
                let mut terms = terms;
                terms.push(sign, operand)?;
                summed(alloc, series, first, terms)
            }
            Unfinished::Bracket | Unfinished::Listed(_) | Unfinished::Called(_, _) => Ok(operand),
        }
    }
}
