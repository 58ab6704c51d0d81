use lw_formula::Parts;

/// What the rules have to know of an item.
#[derive(Clone, Copy, Debug)]
pub struct Entry {
    pub parts: Parts<usize>,
    pub guard: Option<usize>,
    pub absurd: bool,
}
