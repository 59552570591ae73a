//! Why no relations were given.

use crate::AnalyseError;
use thiserror::Error;

/// Why no relations were given: the refusals of the analysis, and then those of the elimination.
#[derive(Drop, Debug, Error)]
pub enum RelationsError {
    #[error("no basis: {0}")]
    Analysis(AnalyseError),
    /// The weight of making the list that the elimination begins with, or of its next event, is past.
    #[error("wide: relations")]
    Wide,
    #[error("budget")]
    Budget,
    #[error("out of memory")]
    Memory,
}
