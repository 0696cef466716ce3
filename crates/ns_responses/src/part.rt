//! How far the reading of a response has come.

use http1::chunked::ChunkedDecoder;

/// The part of a response that the bytes stand in that come next.
#[derive(Clone, Copy)]
pub(crate) enum Part {
    /// A head, of which so many are looked at.
    Head(usize),
    /// What goes through unchanged.
    Unchanged,
    /// Chunks: they may take so many bytes more than are unread.
    Chunks {
        decoder: ChunkedDecoder,
        room: usize,
    },
    /// The trailer section behind the last chunk.
    Trailers,
    /// Nothing more is given.
    Ended,
}
