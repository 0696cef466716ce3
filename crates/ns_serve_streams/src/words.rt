//! Why a join server's answer was refused, in words.

use ns_exchange::{AnsFault, AskFault};
use ns_outside::JoinFault;

/// What a fault of a join means for who runs the join server.
pub fn words_of(why: &JoinFault) -> &'static str {
    match why {
        JoinFault::NoDevice => "the roster has no such device",
        JoinFault::NoMemory => "the request found no memory",
        JoinFault::NoConnection => "the join server cannot be reached",
        JoinFault::Exchange(fault) => words_of_exchange(fault),
    }
}

fn words_of_exchange(why: &AskFault) -> &'static str {
    match why {
        AskFault::Write => "the request could not be sent",
        AskFault::Ended => "no whole response came in time",
        AskFault::BadHead => "the response has no HTTP head that is accepted",
        AskFault::Status => "the status is not 200",
        AskFault::Encoded => "the response has a Transfer-Encoding other than chunked",
        AskFault::TooLong => "the body is over 8192 bytes",
        AskFault::Answer(fault) => words_of_answer(fault),
        AskFault::NoMemory => "the response found no memory",
    }
}

fn words_of_answer(why: &AnsFault) -> &'static str {
    match why {
        AnsFault::NotJson => "the body is no JSON",
        AnsFault::Field => "a field of the JoinAns is missing or wrong",
        AnsFault::AnotherMessage => "no JoinAns, or of another TransactionID",
        AnsFault::Refused(_) => "the join server refuses the device",
        AnsFault::NoJoinAccept => "the PHYPayload is no Join-Accept",
        AnsFault::NwkSKey => "the NwkSKey is wrapped or not 16 bytes",
        AnsFault::NoMemory => "the body found no memory",
    }
}
