use crate::sides::{Counts, Place, SideIds};
use lw_pool::{FormId, SignedId};
use lw_proof::Proof;

/// What is left to be done at a step once the interpolant of the premise that is being read is known.
#[derive(Drop)]
pub(crate) enum Frame<'a> {
    /// A One or a Refl, before which the sides had so many items.
    Only {
        before: Counts,
    },
    /// A Two, whose first premise is being read. In the other one stand these components, and this proof closes it.
    First {
        before: Counts,
        place: Place,
        other: (SignedId, Option<SignedId>),
        proof: &'a Proof,
    },
    /// A Two, whose other premise is being read. This is the interpolant of the first.
    Second {
        before: Counts,
        place: Place,
        first: FormId,
    },
    /// A Step, before which the sides were these.
    Step {
        before: SideIds,
        place: Place,
    },
}
