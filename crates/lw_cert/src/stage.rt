use crate::certificate::Certificate;
use lw_formula::Logic;
use lw_model::Model;
use lw_pool::{FormId, SignedId};
use lw_proof::Rule;

/// What the lines before the body say.
#[derive(Clone, Copy, Debug)]
pub struct Head {
    pub logic: Logic,
    pub formula: FormId,
}

/// A step of a proof, without its subproofs.
#[derive(Clone, Copy, Debug)]
pub struct Step {
    pub rule: Rule,
    pub principal: SignedId,
}

/// A model whose first worlds have been read, and the world that is to refute the formula.
#[derive(Debug, Drop)]
pub struct Table {
    pub model: Model,
    pub refuted: usize,
    /// The world of the next line.
    pub next: usize,
}

/// What the lines so far say.
#[derive(Debug, Drop)]
pub enum Stage {
    Start,
    Headed,
    Chosen(Logic),
    Named(Head),
    /// The depths of the steps to come, the next one last, and the steps so far.
    Proving(Head, Vec<usize>, Vec<Step>),
    Sizing(Head),
    /// The number of worlds.
    Counted(Head, usize),
    Listing(Head, Table),
    Ended(Certificate),
}
