//! Scripts as texts: each text has exactly one script, or exactly one fault at its line and column.
#![tactic(auto)]

mod construct;
mod expr;
mod fault;
mod function;
mod height;
mod laws;
mod onward;
mod opening;
mod operand;
mod operator;
mod part;
mod reader;
mod script;
mod stack;
mod state;
mod statement;
mod word;

pub use expr::{Expr, Exprs, Terms};
pub use fault::{ScriptFault, SyntaxWhy};
pub use function::Function;
pub use laws::{one_script, one_script_answer, one_script_fault};
pub use operator::{Op, Prefix, Relation};
pub use reader::read_script;
pub use script::{Block, Script, Stmt, StmtKind};
