// Lists in answers.
use frac128::{Frac, Whole};
use poly_text::push_number;
use std::alloc::AllocError;

/// What lists in answers have.
pub(crate) trait Item {
    /// Writes the item behind the text.
    fn push_to(&self, text: &mut String) -> Result<(), AllocError>;
}

impl Item for usize {
    fn push_to(&self, text: &mut String) -> Result<(), AllocError> {
        write!(text, "{self}")
    }
}

impl Item for i32 {
    fn push_to(&self, text: &mut String) -> Result<(), AllocError> {
        write!(text, "{self}")
    }
}

impl Item for Whole {
    fn push_to(&self, text: &mut String) -> Result<(), AllocError> {
        write!(text, "{}", self.value())
    }
}

impl Item for Frac {
    fn push_to(&self, text: &mut String) -> Result<(), AllocError> {
        push_number(text, self)
    }
}

/// Writes the items, with commas between them, or `none`, and before them what begins the list.
pub(crate) fn push_list<T: Item>(
    text: &mut String,
    begin: &str,
    items: &[T],
) -> Result<(), AllocError> {
    text.push_str(begin)?;
    if items.is_empty() {
        return text.push_str("none");
    }
    for (place, item) in items.iter().enumerate() {
        if place > 0 {
            text.push(',')?;
        }
        item.push_to(text)?;
    }
    Ok(())
}

/// Writes the lists, with what is between them, or `none`, and before them what begins.
pub(crate) fn push_lists<T: Item>(
    text: &mut String,
    begin: &str,
    lists: &[Vec<T>],
    between: &str,
) -> Result<(), AllocError> {
    text.push_str(begin)?;
    if lists.is_empty() {
        return text.push_str("none");
    }
    for (place, list) in lists.iter().enumerate() {
        push_list(text, if place > 0 { between } else { "" }, list)?;
    }
    Ok(())
}
