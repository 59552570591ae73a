//! Full certificates as files: read from JSON, and written.
//!
//! Proved: `read_full` gives the full certificate, over its loop and with as many parts of each kind as it must have, or the first fault
//! with its path; what `write_full` writes is read as what was written.
//!
//! Notion: certificates.
#![tactic(auto)]

mod all_rounds;
mod branches;
mod form;
pub mod laws;
mod list_texts;
mod lists;
mod parts;
mod poly_values;
mod raw;
mod raw_form;
mod read;
mod round;
mod stage;
mod start;
mod terms;
mod write;

pub use lists::{list_in, list_of, read_raws, read_row, read_rows, read_table};
pub use raw::read_raw;
pub use read::read_full;
pub use stage::read_stage;
pub use start::{read_forms, read_start, read_steps};
pub use write::write_full;
