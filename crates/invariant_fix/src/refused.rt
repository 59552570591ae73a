//! Why loops in sequence have no bases.
use crate::AnalyseError;

/// Why a loop has no basis.
#[derive(Drop)]
pub enum LoopError {
    /// A refusal of the maps, of a branch, or of the analysis; or the units are exhausted, in the analysis or in the elimination of the code before the loop.
    Analysis(AnalyseError),
    /// The weight of making the list of the code before the loop, or of the next event of its elimination, is past.
    Between,
}

/// Why the analysis of the loop at this place, counted from 0, has no basis.
#[derive(Drop)]
pub struct Refused {
    pub place: usize,
    pub error: LoopError,
}
