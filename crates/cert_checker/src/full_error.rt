//! Why a full certificate was not judged.
use loop_model::MapError;

/// Why a full certificate was not judged.
#[derive(Drop)]
pub enum FullError {
    /// A map of the loop can't be formed. This is never want of memory.
    Map(MapError),
    /// The part with this path is an identity of an element that is too long, as `CheckError::Limit` tells; or up to it the parts behind the
    /// certificate itself multiply out to too many terms.
    Limit { path: String },
    /// All parts before the one with this path hold, and it is too wide.
    Wide { path: String },
    /// No memory was left.
    Memory,
}
