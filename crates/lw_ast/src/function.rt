/// A function that a script may call.
#[derive(Clone, Copy, Debug, PartialEq, Eq)]
pub enum Function {
    Provable,
    Certificate,
    Interpolate,
    Fixpoint,
    Nnf,
    Simplify,
    Goedel,
    Boxdot,
    Substitute,
    Vars,
    Depth,
    Count,
    Length,
    Item,
    Append,
    Smallest,
    Trace,
    Letterless,
    Shared,
}
