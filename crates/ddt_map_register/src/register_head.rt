//! The head of a Map-Register (RFC 9301, section 5.6).
//!
//! ```text
//!  0        1        2        3
//! +----+-+-+-+-+--------+---+-+-+-+-+-+--------+
//! |  3 |P|S|I| |reserved|   |E|T|a|R|M| count  |   0
//! +----+-+-+-+-+--------+---+-+-+-+-+-+--------+
//! |                   nonce                    |   4
//! |                                            |   8
//! +------------+--------+----------------------+
//! |   Key ID   |algo-   |    length of the     |  12
//! |            |rithm ID| authentication data  |
//! +------------+--------+----------------------+
//! |  authentication data, then the records ..  |  16
//! ```

ghost use Rattle.std.specs.Prelude.{◌≡◌, ◌+◌, ◌≤◌, length, IfOk};
ghost use Rattle.ddt_map_register.specs.MapRegister.{head_at, head_of, has_bit};

use crate::authentication::is_known;
use crate::fault::MapRegisterFault;
use byteorder::{BigEndian, ByteOrder};
use ddt_wire::TYPE_SHIFT;

/// The type of a Map-Register.
const MAP_REGISTER: u8 = 3;
/// How many bytes there are before the authentication data.
pub(crate) const BEFORE_CODE: usize = 16;

/// The fields of the head.
#[derive(Clone, Copy, Debug)]
pub struct RegisterHead {
    /// P: the Map-Server is to answer in place of the ETR.
    pub proxy: bool,
    /// S: the sender is capable of LISP-SEC.
    pub security: bool,
    /// I: an xTR-ID and a Site-ID are at the end.
    pub has_id: bool,
    /// E: it was sent for a First-Hop Router.
    pub eid_notify: bool,
    /// T: the registration is to last for its TTL.
    pub use_ttl: bool,
    /// a: locators of several xTRs are to be merged.
    pub merge: bool,
    /// M: a Map-Notify is wanted.
    pub want_notify: bool,
    /// How many records there are.
    pub count: u8,
    pub nonce: u64,
    pub key_id: u8,
    pub algorithm: u8,
    /// The length of the authentication data.
    pub code_len: u16,
}

impl RegisterHead {
    ghost use Rattle.std.specs.Prelude.{◌≡◌};
    ghost use Rattle.ddt_map_register.specs.Authentic.{is_known as is_known_length};

    /// Whether the algorithm is known, and has codes of this length: of 12 or 20 bytes by Algorithm ID 1, of 16 by 2.
    pub fn has_known_code(&self) -> bool
        ensures { result ≡ is_known_length self.now.algorithm self.now.code_len }
    {
        is_known(self.algorithm, self.code_len)
    }
}

/// Whether a byte has a bit.
fn bit(byte: u8, place: u8) -> bool
    requires { 1 ≤ place }
    ensures { result ≡ has_bit byte place }
{
    byte / place % 2 == 1
}

/// The fields at their places.
fn fields(bytes: &[u8]) -> RegisterHead
    requires { 16 ≤ length bytes.now }
    ensures { result ≡ head_of bytes.now }
{
    RegisterHead {
        proxy: bit(bytes[0], 8),
        security: bit(bytes[0], 4),
        has_id: bit(bytes[0], 2),
        eid_notify: bit(bytes[2], 16),
        use_ttl: bit(bytes[2], 8),
        merge: bit(bytes[2], 4),
        want_notify: bit(bytes[2], 1),
        count: bytes[3],
        nonce: BigEndian::read_u64(&bytes[4..]),
        key_id: bytes[12],
        algorithm: bytes[13],
        code_len: BigEndian::read_u16(&bytes[14..]),
    }
}

/// The head of a Map-Register whose authentication data isn't cut, or the first fault.
#[tactic(auto, unfolding(crate::specs::MapRegister::head_at))]
pub(crate) fn read_head(bytes: &[u8]) -> Result<RegisterHead, MapRegisterFault>
    ensures exact { result ≡ head_at bytes.now }
    ensures len { IfOk result (λ h. 16 + h.code_len ≤ length bytes.now) }
{
    if bytes.len() < BEFORE_CODE {
        return Err(MapRegisterFault::Short);
    }
    if bytes[0] >> TYPE_SHIFT != MAP_REGISTER {
        return Err(MapRegisterFault::MessageType);
    }
    let head = fields(bytes);
    if bytes.len() < BEFORE_CODE + head.code_len as usize {
        return Err(MapRegisterFault::Short);
    }
    Ok(head)
}
