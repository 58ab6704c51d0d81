use lw_counter::Fragment;
use lw_proof::Proof;

/// What the loop of a search comes to: a proof that closes the set of the goal's item under the sign F, or an open
/// fragment whose world 0 has that item in its label.
#[derive(Drop)]
pub enum Outcome {
    Closed(Proof),
    Open(Fragment),
}
