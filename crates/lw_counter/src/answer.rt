use lw_model::Model;
use lw_proof::Proof;

/// What a search finds: a proof of its goal, or a model and a world of it at which the goal is false.
#[derive(Drop)]
pub enum Answer {
    Yes(Proof),
    No(Model, usize),
}
