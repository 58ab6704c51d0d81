/// A family of formulas with one for each number.
#[derive(Clone, Copy, Debug, PartialEq, Eq)]
pub enum Family {
    /// i boxes imply i + 1 of them: valid where the relation is transitive.
    Transitive,
    /// i + 1 boxes imply i of them: valid where the relation is reflexive.
    Reflexive,
    /// Löb's formula on i boxes: valid in GL.
    Loeb,
    /// A word of modalities implies the same word read from its end.
    Coded,
}
