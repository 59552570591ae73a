// Texts in a row, where `~` is the end of a line, and lists in answers.
ghost use Rattle.std.specs.Prelude.{◌≡◌, ◌↔◌, map, string_bytes, IfOk, OnOk, IsTrue};
ghost use Rattle.worked_rows.specs.Counts.{in_text, with_item};

use std::alloc::{AllocError, Global};

fn in_text(byte: u8) -> u8
    ensures { result ≡ in_text byte }
{
    if byte == b'~' { b'\n' } else { byte }
}

/// The bytes of the text that a row has so.
pub fn bytes_of(alloc: Global, row: &str) -> Result<Vec<u8>, AllocError>
    ensures { IfOk result (λ bytes. bytes.items ≡ map in_text row.now) }
{
    row.bytes().map(|byte| in_text(byte)).collect(alloc)
}

/// Whether this is the text that a row has so.
pub fn is_text(alloc: Global, row: &str, text: &str) -> Result<bool, AllocError>
    ensures { IfOk result (λ same. IsTrue same ↔ (map in_text row.now ≡ text.now)) }
{
    let bytes = bytes_of(alloc, row)?;
    Ok(bytes.as_slice() == text.as_bytes())
}

/// Puts an item behind others, and before it what stands between them.
pub fn push_item(text: &mut String, between: &str, item: &str) -> Result<(), AllocError>
    ensures { OnOk result (string_bytes text.new
        ≡ with_item (string_bytes text.old) between.now item.now) }
{
    if !text.is_empty() {
        text.push_str(between)?;
    }
    text.push_str(item)
}
