//! Grammars as data, the texts of a grammar, a reader with one token of look-ahead, and first faults. A language may be embedded in another
//! one, or have its faults told in other words.
//!
//! Proved: tokens are read exactly where they are a text of the grammar without a fault, and refused exactly for their first fault; what is
//! read rule by rule is what the reader reads; an embedded language reads its part; no fault depends on an offset.
//!
//! Notion: texts and their grammars.
#![tactic(auto)]

pub mod laws;
pub mod retelling_laws;
