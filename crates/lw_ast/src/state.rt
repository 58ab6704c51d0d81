use crate::construct::Unfinished;
use crate::expr::{Expr, Exprs};
use crate::function::Function;
use crate::script::Block;
use lw_formula::Chars;

/// What an expression of a statement is for.
#[derive(Drop)]
pub enum Head {
    Assigning(Chars),
    Printing(Exprs),
    Choosing,
    Counting(Chars),
    Bounding(Chars, Expr),
    Listing(Chars),
    Repeating,
}

/// A statement whose statements are being read.
#[derive(Drop)]
pub enum Compound {
    Yes(Expr),
    No(Expr, Block),
    Counted(Chars, Expr, Expr),
    EachOf(Chars, Expr),
    Repeated(Expr),
}

/// It with the statements before it and its line.
#[derive(Drop)]
pub struct Enclosing {
    pub before: Block,
    pub line: usize,
    pub shape: Compound,
}

/// A statement with an expression that is being read, behind some statements, within others, the innermost last.
#[derive(Drop)]
pub struct Setting {
    pub bodies: Vec<Enclosing>,
    pub before: Block,
    pub line: usize,
    pub head: Head,
}

/// What the tokens so far leave open: an operand is needed, or is there; the bracket of a call is needed; a statement
/// may begin; the `:=` behind a script variable, the variable behind `for`, or what follows it, is needed; or the text
/// is over.
#[derive(Drop)]
pub enum Progress {
    Needed(Vec<Unfinished>, Setting),
    Operand(Expr, Vec<Unfinished>, Setting),
    Calling(Function, Vec<Unfinished>, Setting),
    Between(Vec<Enclosing>, Block),
    Named(Chars, usize, Vec<Enclosing>, Block),
    Looping(usize, Vec<Enclosing>, Block),
    LoopNamed(Chars, usize, Vec<Enclosing>, Block),
    Over(Block),
}
