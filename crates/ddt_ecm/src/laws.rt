//! What holds of every list of bytes and every request, whichever way they are read and written: a law of the
//! definitions, by a function that does nothing.

ghost use Rattle.ddt_ecm.specs.laws.Statements.{RequestsAreRead, WrittenSpells, WrittenIsRead};

/// What spells a request is read as it, and what is read is spelled; bytes spell one at most, only bytes spell, and a
/// fault exists if and only if they spell none. What is written for a nonce, an identifier, ITR-RLOCs and the bit D
/// spells these, with port 4342, and is read as these.
pub fn request_laws()
    ensures read { RequestsAreRead }
    ensures written { WrittenSpells }
    ensures again { WrittenIsRead }
{}
