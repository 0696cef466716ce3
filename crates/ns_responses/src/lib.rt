//! HTTP responses as servers send them, in the form that a reader of plain responses takes (RFC 9112).
//!
//! - `Responses`: a stream over another. It passes over interim heads (1xx), and gives a response with a chunked body as the
//!   same head without its Transfer-Encoding and then the content of the chunks, up to the end of the stream. A stream
//!   of chunks that is no chunked body, or is cut short, fails. All else goes through unchanged, and so do writes.
//!
//! However the bytes come, what is given in their place is `plain_of` of `specs/`, and it ends in a failure exactly where
//! that is not whole or the stream under it fails. `chunked_responses_are_given_plain` says so of a response as a server
//! writes it, by http1's grammar of chunks. Bytes are held in 4 KB, and nothing is allocated. Stands on ns_types and the
//! kit's httparse and http1.
#![tactic(auto)]

mod head;
mod held;
mod laws;
mod part;
mod responses;
mod section;

pub use laws::chunked_responses_are_given_plain;
pub use responses::Responses;
