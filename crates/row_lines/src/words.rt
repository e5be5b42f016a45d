//! Words and numbers of a line.

use std::alloc::{AllocError, Global};

/// The first word of a text, and what stands behind the space after it.
pub fn first_word(text: &str) -> (&str, &str) {
    match text.split_once(' ') {
        Some((word, rest)) => (word, rest),
        None => (text, ""),
    }
}

/// A number in decimal digits.
pub fn number(word: &str) -> Option<u64> {
    word.parse::<u64>().ok()
}

/// The numbers of a text, with spaces between them, or nothing where a word is no number.
pub fn numbers(alloc: Global, text: &str) -> Result<Option<Vec<u64>>, AllocError> {
    let mut all = Vec::new(alloc);
    for word in text.split_ascii_whitespace() {
        match number(word) {
            Some(n) => all.push(n)?,
            None => return Ok(None),
        }
    }
    Ok(Some(all))
}
