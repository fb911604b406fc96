//! A negative Map-Reply of one record: the answer of a Map-Resolver to an ITR that its prefix has no locator (RFC 9301,
//! section 5.4).
//!
//! ```text
//!  0        1        2        3
//! +----+---+--------+--------+--------+
//! |  2 |      ignored        | count 1|   0
//! +----+---+--------+--------+--------+
//! |              nonce                |   4
//! |                                   |   8
//! +-----------------------------------+
//! |         TTL, in minutes           |  12
//! +--------+--------+---+-+-----------+
//! |locator |EID mask|ACT|A| reserved  |  16
//! | count 0|  len   | 1 | |           |
//! +----+---+--------+---+-+-----------+
//! |    | map version|     EID-AFI     |  20
//! +----+------------+-----------------+
//! |  EID ...                          |  24
//! ```
//!
//! A, the map version and the reserved bits are ignored.

ghost use Rattle.std.specs.Prelude.{◌≡◌, ◌≤◌, Ok, IfOk, OnOk, IsOk, vec_capacity};
ghost use Rattle.ddt_wire.specs.declared.negative_reply.NegativeReply.{NegativeReply};
ghost use Rattle.ddt_wire.specs.NegativeReply.{SpellsReply, written_reply, reply_of, reply_in};

use crate::eid::{EidFault, eid, mask_len, write_eid};
use crate::head::{ACT, BEFORE_EID, Head, HeadFault, put_head, read_head};
use crate::message_type::MAP_REPLY;
use ddt_path::Prefix;
use std::alloc::{AllocError, Global};
use thiserror::Error;

/// ACT of a prefix without locators: packets to it are forwarded natively.
const NATIVELY_FORWARD: u16 = 1;

/// The first fault of a datagram that is no negative Map-Reply.
#[derive(Clone, Copy, Debug, PartialEq, Eq, Error)]
pub enum ReplyFault {
    /// A field passes the end.
    #[error("1 Short")]
    Short,
    /// The first four bits aren't 2.
    #[error("2 MessageType")]
    MessageType,
    /// The record count isn't 1.
    #[error("3 RecordCount")]
    RecordCount,
    /// The locator count isn't 0: the reply isn't negative.
    #[error("4 LocatorCount")]
    LocatorCount,
    /// ACT isn't 1.
    #[error("5 BadAction")]
    BadAction,
    /// The EID-AFI isn't 1, 2 or 16387.
    #[error("6 EidFamily")]
    EidFamily,
    /// An LCAF isn't of type 2, or its inner AFI isn't 0, 1 or 2, or its length doesn't fit that.
    #[error("7 Lcaf")]
    Lcaf,
    /// A mask length is above the width.
    #[error("8 MaskLength")]
    MaskLength,
    /// A digit past the length of a range of instances isn't 0.
    #[error("9 TailNotZero")]
    TailNotZero,
    /// Bytes stand after the EID.
    #[error("10 Trailing")]
    Trailing,
}

/// What a negative Map-Reply says.
#[derive(Clone, Copy, Debug, PartialEq, Eq)]
pub struct NegativeReply {
    /// The nonce of the request that it answers.
    pub nonce: u64,
    /// How long it may be kept, in minutes.
    pub ttl: u32,
    /// The prefix that has no locator.
    pub prefix: Prefix,
}

/// Puts the one spelling of a negative Map-Reply with this nonce, TTL in minutes and prefix into a buffer, in place of
/// what that holds. It has 28 to 52 bytes: no locator, ACT 1 (Natively-Forward), and every ignored bit 0 (RFC 9301,
/// section 5.4). Fails only if out of memory, and never where the buffer has room for 52 bytes; then some of the message
/// may be there.
pub fn put_negative_reply(
    buffer: &mut Vec<u8>,
    nonce: u64,
    ttl: u32,
    prefix: Prefix,
) -> Result<(), AllocError>
    ensures written { OnOk result (buffer.new.items ≡ written_reply (reply_of nonce ttl prefix)) }
    ensures spelled { OnOk result (SpellsReply buffer.new.items (reply_of nonce ttl prefix)) }
    ensures capacity { vec_capacity buffer.old ≤ vec_capacity buffer.new }
    ensures reserved { 52 ≤ vec_capacity buffer.old → IsOk result }
{
    let head = Head {
        nonce,
        ttl,
        locators: 0,
        mask_len: mask_len(prefix),
        flags: NATIVELY_FORWARD * ACT,
        version: 0,
    };
    buffer.clear();
    put_head(buffer, MAP_REPLY, &head)?;
    write_eid(buffer, prefix)?;
    Ok(())
}

/// The one spelling of a negative Map-Reply with this nonce, TTL in minutes and prefix, as `put_negative_reply` writes
/// it. Fails only if out of memory.
pub fn write_negative_reply(
    alloc: Global,
    nonce: u64,
    ttl: u32,
    prefix: Prefix,
) -> Result<Vec<u8>, AllocError>
    ensures written { IfOk result (λ bytes. bytes.items ≡ written_reply (reply_of nonce ttl prefix)) }
    ensures spelled { IfOk result (λ bytes. SpellsReply bytes.items (reply_of nonce ttl prefix)) }
{
    let mut bytes = Vec::new(alloc);
    put_negative_reply(&mut bytes, nonce, ttl, prefix)?;
    Ok(bytes)
}

/// The negative Map-Reply that the bytes are, or the first fault.
#[tactic(auto, unfolding(crate::specs::NegativeReply::reply_in))]
fn reply(bytes: &[u8]) -> Result<NegativeReply, ReplyFault>
    ensures { result ≡ reply_in bytes.now }
{
    let head = read_head(MAP_REPLY, bytes).map_err(|fault| match fault {
        HeadFault::Short => ReplyFault::Short,
        HeadFault::MessageType => ReplyFault::MessageType,
        HeadFault::RecordCount => ReplyFault::RecordCount,
    })?;
    if head.locators != 0 {
        return Err(ReplyFault::LocatorCount);
    }
    if head.flags / ACT != NATIVELY_FORWARD {
        return Err(ReplyFault::BadAction);
    }
    let (_before, from_eid) = bytes.split_at(BEFORE_EID);
    let (prefix, taken) = eid(from_eid, head.mask_len).map_err(|fault| match fault {
        EidFault::Short => ReplyFault::Short,
        EidFault::EidFamily => ReplyFault::EidFamily,
        EidFault::Lcaf => ReplyFault::Lcaf,
        EidFault::MaskLength => ReplyFault::MaskLength,
        EidFault::TailNotZero => ReplyFault::TailNotZero,
    })?;
    if taken != from_eid.len() {
        return Err(ReplyFault::Trailing);
    }
    Ok(NegativeReply {
        nonce: head.nonce,
        ttl: head.ttl,
        prefix,
    })
}

/// What the datagram says, all of it being one negative Map-Reply of one record. Refused, in this order:
///
/// - 1 Short: fewer than 4 bytes.
/// - 2 MessageType: the first four bits aren't 2.
/// - 3 RecordCount: there isn't exactly one record.
/// - 1 Short: fewer than 24 bytes.
/// - 4 LocatorCount: there is a locator, so the reply isn't negative.
/// - 5 BadAction: ACT isn't 1.
/// - 6 EidFamily, 7 Lcaf, 1 Short, 8 MaskLength, 9 TailNotZero: the EID, as of `read_eid`.
/// - 10 Trailing: bytes after the EID.
///
/// The 20 bits behind the type, the bit A, the map version and reserved bits are ignored (RFC 9301, section 5.4).
pub fn read_negative_reply(bytes: &[u8]) -> Result<NegativeReply, ReplyFault>
    // The bytes spell what is read.
    ensures found { IfOk result (λ v. SpellsReply bytes.now v) }
    // What they spell is read.
    ensures only { (v : NegativeReply) → SpellsReply bytes.now v → result ≡ Ok v }
    // Which fault it is.
    ensures exact { result ≡ reply_in bytes.now }
{
    reply(bytes)
}
