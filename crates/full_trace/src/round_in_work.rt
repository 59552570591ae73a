//! A round of a trace.
use invariant_fix::Setting;
use task_lists::Polys;

/// A round of a trace in work: what its tasks read.
#[derive(Clone, Copy)]
pub(crate) struct RoundInWork<'a> {
    pub(crate) setting: &'a Setting,
    pub(crate) round: u32,
    /// The list of the round before.
    pub(crate) basis: &'a Polys,
}
