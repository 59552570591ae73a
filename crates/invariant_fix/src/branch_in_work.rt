//! A branch in a round of an analysis.
use crate::setting::Setting;
use frac128::Frac;
use monos::Grevlex;
use poly::Poly;

/// A branch in a round of an analysis: what each of its tasks reads.
#[derive(Clone, Copy)]
pub(crate) struct BranchInWork<'a> {
    pub(crate) setting: &'a Setting,
    pub(crate) round: u32,
    /// The place of the branch, counted from 0.
    pub(crate) place: usize,
    /// The list that the round begins with; that of the round itself where it is tested for being closed.
    pub(crate) basis: &'a [Poly<Frac, Grevlex>],
}
