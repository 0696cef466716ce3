//! Laws of what is given in the place of a response.

ghost use Rattle.std.specs.Prelude.{◌≡◌, ◌++◌, ℕ, List};
ghost use Rattle.ns_responses.specs.Plain.{unchanged, plain_of};
ghost use Rattle.ns_responses.specs.Sent.{Sent, IsSent, sent_bytes, plain_bytes};

/// A response in chunks, behind any interim responses up to 15, is given as its head without the line that names the
/// coding and then the content of its chunks, whatever its extensions and trailers, and whatever follows it.
pub fn chunked_responses_are_given_plain()
    ensures { (s : Sent) (more : List ℕ) → IsSent s
        → plain_of 16 (sent_bytes s ++ more) ≡ unchanged (plain_bytes s) }
{}
