//! The head that a Map-Referral and a Map-Reply of one record have in common, up to the EID (RFC 8111, section 6.4; RFC
//! 9301, section 5.4).
//!
//! ```text
//!  0        1        2        3
//! +----+---+--------+--------+--------+
//! |type|      ignored        | count 1|   0
//! +----+---+--------+--------+--------+
//! |              nonce                |   4
//! |                                   |   8
//! +-----------------------------------+
//! |         TTL, in minutes           |  12
//! +--------+--------+---+-------------+
//! |locator |EID mask|ACT|  the rest   |  16
//! | count  |  len   |   | of the flags|
//! +----+---+--------+---+-------------+
//! |    | map version|     EID-AFI     |  20
//! +----+------------+-----------------+
//! ```
//!
//! What the flags behind ACT and the four bits before the map version mean is each message's own.

ghost use Rattle.std.specs.Prelude.{◌≡◌, ◌++◌, ◌^◌, ◌<◌, ◌+◌, ◌≤◌, length, OnOk, IsOk, vec_len, vec_capacity};
ghost use Rattle.ddt_wire.specs.Head.{head_at, head_bytes};

use crate::message_type::TYPE_SHIFT;
use byteorder::{BigEndian, ByteOrder};
use std::alloc::AllocError;

/// The place of the type in the first four bytes.
const TYPE: u32 = 1 << 28;
/// How many bytes stand before the EID's AFI.
pub(crate) const BEFORE_EID: usize = 22;
/// The place of ACT in the flags.
pub(crate) const ACT: u16 = 1 << 13;

/// The fields of a head, beside its type and the record count.
#[derive(Clone, Copy)]
pub(crate) struct Head {
    pub(crate) nonce: u64,
    /// In minutes.
    pub(crate) ttl: u32,
    /// How many locators the record has.
    pub(crate) locators: u8,
    /// The EID mask-len.
    pub(crate) mask_len: u8,
    /// ACT in the first three bits.
    pub(crate) flags: u16,
    /// The map version in the last twelve bits.
    pub(crate) version: u16,
}

/// The first fault of a head.
#[derive(Clone, Copy)]
pub(crate) enum HeadFault {
    /// A field passes the end.
    Short,
    /// The first four bits are another type.
    MessageType,
    /// The record count isn't 1.
    RecordCount,
}

/// Appends the head of a message of this type, 22 bytes. It succeeds where they were reserved.
pub(crate) fn put_head(bytes: &mut Vec<u8>, message_type: u8, head: &Head) -> Result<(), AllocError>
    requires { message_type < 16 }
    ensures written { OnOk result (bytes.new.items ≡ bytes.old.items ++ head_bytes message_type 0 head.now) }
    ensures ttl { OnOk result (head.now.ttl < 2 ^ 32) }
    ensures len { OnOk result (vec_len bytes.new ≡ vec_len bytes.old + 22) }
    ensures capacity { vec_capacity bytes.old ≤ vec_capacity bytes.new }
    ensures reserved { vec_len bytes.old + 22 ≤ vec_capacity bytes.old → IsOk result }
{
    let type_and_count = u32::from(message_type) * TYPE + 1;
    bytes.extend_from_slice(&type_and_count.to_be_bytes())?;
    bytes.extend_from_slice(&head.nonce.to_be_bytes())?;
    bytes.extend_from_slice(&head.ttl.to_be_bytes())?;
    bytes.extend_from_slice(&[head.locators, head.mask_len])?;
    bytes.extend_from_slice(&head.flags.to_be_bytes())?;
    bytes.extend_from_slice(&head.version.to_be_bytes())
}

/// The head of a message of this type, where the EID's AFI isn't cut; or the first fault.
#[tactic(auto, unfolding(crate::specs::Head::head_at))]
pub(crate) fn read_head(message_type: u8, bytes: &[u8]) -> Result<Head, HeadFault>
    ensures exact { result ≡ head_at message_type bytes.now }
    ensures len { OnOk result (24 ≤ length bytes.now) }
{
    if bytes.len() < 4 {
        return Err(HeadFault::Short);
    }
    if bytes[0] >> TYPE_SHIFT != message_type {
        return Err(HeadFault::MessageType);
    }
    if bytes[3] != 1 {
        return Err(HeadFault::RecordCount);
    }
    if bytes.len() < BEFORE_EID + 2 {
        return Err(HeadFault::Short);
    }
    Ok(Head {
        nonce: BigEndian::read_u64(&bytes[4..]),
        ttl: BigEndian::read_u32(&bytes[12..]),
        locators: bytes[16],
        mask_len: bytes[17],
        flags: BigEndian::read_u16(&bytes[18..]),
        version: BigEndian::read_u16(&bytes[20..]),
    })
}
