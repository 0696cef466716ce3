//! Laws of the formulas, as contracts of functions that do nothing.

ghost use Rattle.ns_secure.specs.Examples.{Integrity, Ciphers, SessionKeys, Counters};
ghost use Rattle.ns_secure.specs.Laws.{CipherUndoesItself, CipherKeepsLength, MicHasFourBytes, JoinMicHasFourBytes, NwkSKeyHasSixteenBytes, AppSKeyHasSixteenBytes, AcceptIsDeciphered, AcceptIsEnciphered};

use ns_aes_cmac::ciphers_undo_each_other;

/// The formulas give the examples.
pub fn examples()
    ensures integrity { Integrity }
    ensures ciphers { Ciphers }
    ensures session_keys { SessionKeys }
    ensures counters { Counters }
{}

/// The payload cipher is its own inverse, under each key of 16 bytes.
pub fn cipher_law()
    ensures inverse { CipherUndoesItself }
    ensures length { CipherKeepsLength }
{}

/// The cipher of a Join-Accept and its inverse undo each other.
pub fn accept_law()
    ensures deciphered { AcceptIsDeciphered }
    ensures enciphered { AcceptIsEnciphered }
{
    ciphers_undo_each_other();
}

/// How long MICs and the keys of a session are, under each key of 16 bytes.
pub fn length_law()
    ensures mic { MicHasFourBytes }
    ensures join_mic { JoinMicHasFourBytes }
    ensures nwk_s_key { NwkSKeyHasSixteenBytes }
    ensures app_s_key { AppSKeyHasSixteenBytes }
{}
