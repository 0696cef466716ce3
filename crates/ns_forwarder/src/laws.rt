//! Laws of the definitions, as contracts of functions that do nothing.

ghost use Rattle.ns_forwarder.specs.Laws.{ClocksFollow, HertzExact, MessagesExactly};

/// Bytes are read as a head and a body exactly where they are the message of these.
pub fn messages_exactly()
    ensures { MessagesExactly }
{}

/// A gateway's count of microseconds, of 64 bits, that is less than half a wrap (35.8 minutes) from where this machine's clock says that
/// it must be, is read off its low 32 bits, whatever wraps came between.
pub fn clocks_follow()
    ensures { ClocksFollow }
{}

/// A frequency of EU868 in whole Hz is read from its decimal text in MHz without an error, whatever digits and exponent spell it.
pub fn hertz_exact()
    ensures { HertzExact }
{}
