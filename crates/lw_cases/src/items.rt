use std::alloc::AllocError;

/// Adds an item to a list that is written with commas.
pub fn add_item(list: &mut String, item: &str) -> Result<(), AllocError> {
    if !list.is_empty() {
        list.push_str(", ")?;
    }
    list.push_str(item)
}
