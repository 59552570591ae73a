//! Why a loop has no trace.
use invariant_fix::AnalyseError;
use thiserror::Error;

/// Why a loop has no trace.
#[derive(Debug, Drop, Error)]
pub enum TraceError {
    /// A map or a branch is refused, as an analysis refuses it, or memory is wanting.
    #[error("{0}")]
    Analysis(AnalyseError),
    /// The first branch that begins later than at 0, counted from 0: its form isn't the state from 0 on.
    #[error("branch {branch}: begins late")]
    Late { branch: usize },
}
