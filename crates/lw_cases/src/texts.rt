//! Cases on texts alone.

use crate::items::add_item;
use crate::unanswered::Unanswered;
use lw_formula::Chars;
use lw_read::{print_form, read_formula, tokens};
use std::alloc::{AllocError, Global};

/// The bytes of a copy of the text's characters.
pub fn chars_line(alloc: Global, text: &[u8]) -> Result<Vec<u8>, AllocError> {
    let copy = Chars::from_bytes(alloc, text)?.try_clone()?;
    Vec::from_slice(alloc, copy.as_bytes())
}

/// The text's tokens: the kind of each, and its bytes from 0.
pub fn token_line(alloc: Global, text: &[u8]) -> Result<String, AllocError> {
    let mut list = String::new(alloc);
    for token in &tokens(alloc, text)? {
        let item = format!(in alloc; "{:?} {}..{}", token.kind, token.start, token.end)?;
        add_item(&mut list, item.as_str())?;
    }
    Ok(list)
}

/// The text of the formula that is read, as a tree's, or its fault.
pub fn read_line(alloc: Global, text: &[u8]) -> Result<Vec<u8>, Unanswered> {
    match read_formula(alloc, text) {
        Ok(form) => Ok(print_form(alloc, &form)?),
        Err(fault) => Ok(format!(in alloc; "{fault}")?.into_bytes()),
    }
}
