// Formulas by their roots.
use sheet::literal::Literal;

// The literal that a formula is known by, and how many gates its list then has.
#[derive(Clone, Copy, PartialEq, Eq)]
pub struct Root {
    pub literal: Literal,
    pub gates: u32,
}
