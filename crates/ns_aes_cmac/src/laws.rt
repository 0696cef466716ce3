//! Laws of the definitions, which the check proves. The functions do nothing.

ghost use Rattle.std.specs.Prelude.{◌≡◌, ℕ, List};
ghost use Rattle.ns_aes_cmac.specs.Aes.{aes, unaes, multiplicative_inverse, IsBlock, IsInverse};
ghost use Rattle.ns_aes_cmac.specs.Vectors.{AesVectors, KeyExpansionVector, CmacVectors};

/// The definitions give the vectors of FIPS 197 and RFC 4493.
pub fn known_answers()
    ensures aes { AesVectors }
    ensures key_expansion { KeyExpansionVector }
    ensures cmac { CmacVectors }
{}

/// The power 254 of a byte is its inverse in the field.
pub fn inverse_law()
    ensures { IsInverse multiplicative_inverse }
{}

/// Of 16 bytes under a key of 16 bytes, deciphering undoes enciphering, and enciphering undoes deciphering.
pub fn ciphers_undo_each_other()
    ensures deciphered { (key b : List ℕ) → IsBlock key → IsBlock b → unaes key (aes key b) ≡ b }
    ensures enciphered { (key b : List ℕ) → IsBlock key → IsBlock b → aes key (unaes key b) ≡ b }
{}
