//! Texts that are wanted.

/// Where a text has this piece first.
pub fn place_of(text: &[u8], piece: &[u8]) -> Option<usize> {
    for i in 0..text.len() {
        if text[i..].starts_with(piece) {
            return Some(i);
        }
    }
    None
}

/// Whether a text has this piece.
pub fn contains(text: &[u8], piece: &[u8]) -> bool {
    place_of(text, piece).is_some()
}

/// A text that is wanted.
pub enum Want {
    /// These pieces, one behind the other.
    Is(&'static [&'static str]),
    /// One that has each of these pieces.
    Has(&'static [&'static str]),
}

/// Whether a text is made of these pieces.
pub fn is_made_of(text: &[u8], pieces: &[&str]) -> bool {
    let mut rest = text;
    for piece in pieces {
        if !rest.starts_with(piece.as_bytes()) {
            return false;
        }
        rest = rest.get(piece.len()..).unwrap_or(&[]);
    }
    rest.is_empty()
}

// Whether a text has each of these pieces.
fn has_each(text: &[u8], pieces: &[&str]) -> bool {
    for piece in pieces {
        if !contains(text, piece.as_bytes()) {
            return false;
        }
    }
    true
}

impl Want {
    /// Whether this text is wanted.
    pub fn fits(&self, text: &[u8]) -> bool {
        match self {
            Want::Is(pieces) => is_made_of(text, pieces),
            Want::Has(pieces) => has_each(text, pieces),
        }
    }
}
