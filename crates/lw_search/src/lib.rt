//! The one loop of all tableau searches: a stack of levels, each the saturation of a label's seed, generic over the rule
//! for steps.
#![tactic(auto)]

mod answering;
mod asking;
mod explore;
mod fall;
mod level;
mod outcome;
mod rule;
mod searching;
mod seed;
mod serve;
mod tableau;
mod turn;
mod used;
mod world;

pub use answering::answer;
pub use outcome::Outcome;
pub use rule::StepRule;
pub use searching::search;
