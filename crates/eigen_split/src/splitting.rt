//! What a matrix is split into.
use frac128::Frac;

/// Forms, which are rows as wide as the matrix, and the value of each.
#[derive(Drop)]
pub struct Split {
    pub forms: Vec<Vec<Frac>>,
    pub values: Vec<Frac>,
}
