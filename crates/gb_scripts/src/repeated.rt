// Texts in which pieces repeat.

use std::alloc::{AllocError, Global};

/// The text of a line `count;before;middle;behind` in full: so many times the first piece, the middle, and so many times the last
/// piece.
pub fn in_full(alloc: Global, line: &str) -> Result<String, AllocError> {
    let (count, pieces) = line.split_once(';').unwrap_or((line, ""));
    let (before, pieces) = pieces.split_once(';').unwrap_or((pieces, ""));
    let (middle, behind) = pieces.split_once(';').unwrap_or((pieces, ""));
    let count = count.parse::<usize>().unwrap_or(0);
    let before = before.repeat(alloc, count)?;
    let behind = behind.repeat(alloc, count)?;
    format!(in alloc; "{before}{middle}{behind}")
}
