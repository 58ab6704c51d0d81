//! Lists of lines in which a line that comes again at once is counted.

use crate::items::add_item;
use std::alloc::{AllocError, Global};

fn is_last(lines: &[(String, usize)], line: &str) -> bool {
    match lines.last() {
        Some((last, _)) => last.as_str() == line,
        None => false,
    }
}

fn count_last(lines: &mut [(String, usize)]) {
    let len = lines.len();
    if len > 0 {
        lines[len - 1].1 = lines[len - 1].1.saturating_add(1);
    }
}

/// Counts a line with the last one, if it is the same, else puts it behind it.
pub fn add_repeat(lines: &mut Vec<(String, usize)>, line: String) -> Result<(), AllocError> {
    if is_last(lines, line.as_str()) {
        count_last(lines);
    } else {
        lines.push((line, 1))?;
    }
    Ok(())
}

/// The lines, each behind the number of times that it comes.
pub fn repeat_list(alloc: Global, lines: &[(String, usize)]) -> Result<String, AllocError> {
    let mut list = String::new(alloc);
    for (line, count) in lines {
        add_item(&mut list, format!(in alloc; "{count} {line}")?.as_str())?;
    }
    Ok(list)
}
