//! Texts of lines.

/// The text without its last line.
pub fn without_last(text: &str) -> &str {
    let whole = text.strip_suffix("\n").unwrap_or(text);
    match whole.rsplit_once("\n") {
        Some((before, _)) => &text[..before.len() + 1],
        None => "",
    }
}

/// The text without its last `torn` bytes.
pub fn without_end(text: &str, torn: usize) -> &str {
    text.get(..text.len().saturating_sub(torn)).unwrap_or("")
}
