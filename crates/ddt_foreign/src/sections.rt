//! Sections that are passed over by their length: the signature sections of a record (RFC 8111, section 6.4.1) and the
//! keys in an LCAF of type 11 (RFC 8060, section 4.7).
//!
//! ```text
//!  0        1        2        3
//! +-----------------------------------+
//! |           original TTL            |   0
//! |       signature expiration        |   4
//! |       signature inception         |   8
//! +-----------------+-----------------+
//! |     key tag     |signature length |  12
//! +--------+--------+-----------------+
//! |algor'm |         reserved         |  16
//! +--------+--------------------------+
//! |  signature ...                    |  20
//! ```

ghost use Rattle.std.specs.Prelude.{◌≡◌, ◌+◌, ◌≤◌};
ghost use Rattle.ddt_path.specs.Steps.{IsReadAs};
ghost use Rattle.ddt_foreign.specs.Sections.{section_at, sections_at};

use crate::fault::ForeignFault;
use byteorder::{BigEndian, ByteOrder};

/// How many bytes a signature section has before the signature.
pub(crate) const SIGNATURE_HEAD: usize = 20;
/// Where the length of the signature is.
pub(crate) const SIGNATURE_PLACE: usize = 14;
/// How many bytes there are before a key: its length.
pub(crate) const KEY_HEAD: usize = 2;

/// The bytes after one section.
#[tactic(auto, unfolding(crate::specs::Sections::section_at))]
fn pass(head: usize, place: usize, bytes: &[u8]) -> Result<&[u8], ForeignFault>
    requires inside { place + 2 ≤ head }
    requires short { head ≤ 20 }
    ensures { IsReadAs (λ x. x.now) result (section_at head place bytes.now) }
{
    if bytes.len() < head {
        return Err(ForeignFault::Short);
    }
    let len = head + BigEndian::read_u16(&bytes[place..]) as usize;
    if bytes.len() < len {
        return Err(ForeignFault::Short);
    }
    let (_section, rest) = bytes.split_at(len);
    Ok(rest)
}

/// The bytes after so many sections.
pub(crate) fn pass_all(
    head: usize,
    place: usize,
    count: u8,
    bytes: &[u8],
) -> Result<&[u8], ForeignFault>
    requires inside { place + 2 ≤ head }
    requires short { head ≤ 20 }
    ensures { IsReadAs (λ x. x.now) result (sections_at head place count bytes.now) }
{
    let mut rest = bytes;
    for _ in 0..count {
        rest = pass(head, place, rest)?;
    }
    Ok(rest)
}
