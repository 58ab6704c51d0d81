//! A stack of equal rows of bits, in which a search keeps its labels. Room for rows is reserved
//! beforehand, and no push within it takes memory.
#![tactic(auto)]

mod row_mark;
mod rows;
mod words;

pub use row_mark::RowMark;
pub use rows::Rows;
