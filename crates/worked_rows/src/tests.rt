// What all tests share. Each has rows: whether each call answers what is wanted.
use std::process::Abort;

// Stops at the first row that differs.
pub(crate) fn expect(rt: &impl Abort, rows: &[bool]) {
    for (row, agrees) in rows.iter().enumerate() {
        assert!(rt; *agrees, "row {row} differs");
    }
}
