//! The header of an Encapsulated Control Message (RFC 9301, section 5.8; the bit D: RFC 8111, section 5).
//!
//! ```text
//!  0        1        2        3
//! +----+-+-+-------------------------+
//! |  8 |S|D|        ignored          |   0
//! +----+-+-+-------------------------+
//! |  IPv4 or IPv6 header ...         |   4
//! ```

ghost use Rattle.std.specs.Prelude.{◌≡◌, ◌≤◌, length, OnOk};
ghost use Rattle.ddt_path.specs.Steps.{IsReadAs};
ghost use Rattle.ddt_ecm.specs.EcmHeader.{ecm_at, ecm_header as ecm_header_of};

use crate::fault::RequestFault;
use ddt_wire::{ENCAPSULATED, TYPE_SHIFT};

/// How many bits stand behind the bit S.
const S_SHIFT: u32 = 3;
/// How many bits stand behind the bit D.
pub(crate) const D_SHIFT: u32 = 2;
/// The bit D in the first byte of the message: a DDT client asks (RFC 8111, section 5).
pub const DDT: u8 = 1 << D_SHIFT;

/// What stands behind the four bytes of an ECM header that are right.
#[tactic(auto, unfolding(crate::specs::EcmHeader::ecm_at))]
pub(crate) fn read_ecm(bytes: &[u8]) -> Result<&[u8], RequestFault>
    ensures exact { IsReadAs (λ rest. rest.now) result (ecm_at bytes.now) }
    ensures len { OnOk result (4 ≤ length bytes.now) }
{
    if bytes.len() < 4 {
        return Err(RequestFault::Short);
    }
    if bytes[0] >> TYPE_SHIFT != ENCAPSULATED {
        return Err(RequestFault::MessageType);
    }
    if (bytes[0] >> S_SHIFT) % 2 != 0 {
        return Err(RequestFault::Security);
    }
    let (_header, rest) = bytes.split_at(4);
    Ok(rest)
}

/// An ECM header with the bit D or without.
pub(crate) fn ecm_header(ddt: bool) -> [u8; 4]
    ensures { result ≡ ecm_header_of ddt }
{
    let bit = if ddt { DDT } else { 0 };
    [(ENCAPSULATED << TYPE_SHIFT) + bit, 0, 0, 0]
}
