use lw_formula::Joint;

/// A sign between the operands of a sum or a product.
#[derive(Clone, Copy, Debug, PartialEq, Eq)]
pub enum Op {
    Plus,
    Minus,
    Times,
}

/// A sign between two values that are compared: `==`, `!=`, `<` and `<=`.
#[derive(Clone, Copy, Debug, PartialEq, Eq)]
pub enum Relation {
    Equal,
    Unequal,
    Less,
    AtMost,
}

/// What stands before its operand in a formula.
#[derive(Clone, Copy, Debug, PartialEq, Eq)]
pub enum Prefix {
    Not,
    Nec,
    Poss,
}

/// Sums and products.
#[derive(Clone, Copy, Debug, PartialEq, Eq)]
pub enum Series {
    Sum,
    Product,
}

/// What joins two expressions: `or`, `and`, or a connective of formulas.
#[derive(Clone, Copy, Debug, PartialEq, Eq)]
pub enum Link {
    Either,
    Both,
    Binary(Joint),
}
