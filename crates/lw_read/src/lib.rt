//! Reading and printing formulas: each text has exactly one tree or exactly one fault at its place, and what is
//! printed reads back.
#![tactic(auto)]

mod construct;
mod fault;
mod laws;
mod lexeme;
mod lexer;
mod measure;
mod place;
mod pool_printer;
mod print_fault;
mod printer;
mod reader;
mod text;
mod text_fault;

pub use construct::{Construct, end_tighter};
pub use fault::ReadFault;
pub use laws::{letters_are_names, one_answer, one_fault, one_tree, reads_back, token_rule};
pub use lexer::{Token, TokenKind, tokens};
pub use measure::text_length;
pub use place::{Place, place_of};
pub use pool_printer::{LONGEST_TEXT, print_formula, write_formula};
pub use print_fault::PrintFault;
pub use printer::print_form;
pub use reader::read_formula;
pub use text::{TextReader, read_text};
pub use text_fault::TextFault;
