//! The search of S5. It has a root and children of the root alone: the root's label is split by cuts until it has one of
//! the two items of each modal formula that its children meet.
#![tactic(auto)]

mod child;
mod label;
mod obstacle;
mod root;
mod search;

pub use search::search_s5;
