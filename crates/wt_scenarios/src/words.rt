// The words of a line.
use std::alloc::{AllocError, Global};

/// Returns the words of a text, up to a `#` that begins one.
pub fn words_of<'a>(alloc: Global, text: &'a str) -> Result<Vec<&'a str>, AllocError> {
    let mut words = Vec::new(alloc);
    for word in text.split_whitespace() {
        if word.starts_with('#') {
            return Ok(words);
        }
        words.push(word)?;
    }
    Ok(words)
}

/// Returns the number that a word spells.
pub fn number(word: &str) -> Option<u64> {
    match word.parse::<u64>() {
        Ok(n) => Some(n),
        Err(_) => None,
    }
}

/// Returns the number that a word spells, if it is below 2^32.
pub fn small(word: &str) -> Option<u32> {
    match word.parse::<u32>() {
        Ok(n) => Some(n),
        Err(_) => None,
    }
}
