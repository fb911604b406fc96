//! An EID from its AFI on: an address alone, or an LCAF of type 2 with an Instance ID (RFC 8060, sections 3 and 4.1).
//!
//! ```text
//!  0        1        2        3
//! +--------+--------+--------+--------+
//! |   AFI = 16387   | ignored| ignored|   0
//! +--------+--------+--------+--------+
//! | type 2 | IID    |  length of what |   4
//! |        |mask-len|     follows     |
//! +--------+--------+-----------------+
//! |            Instance ID            |   8
//! +-----------------+-----------------+
//! |  AFI = 0, 1, 2  |  address ...    |  12
//! +-----------------+-----------------+
//! ```

ghost use Rattle.std.specs.Prelude.{◌≡◌, ◌++◌, ◌+◌, ◌≤◌, OnOk, OnErr, IsOk, List, ℕ, Ok, length, take, IfOk, vec_len, vec_capacity};
ghost use Rattle.ddt_wire.specs.Eid.{written_eid, written_mask_len, instance_head, written_form, eid_at, lcaf_at, inside_at, block_at, has_length, SpellsEid};
ghost use Rattle.ddt_wire.specs.laws.Statements.{IsPrefix};

use crate::address::{
    AddressFault, IPV4, IPV4_LEN, IPV6, IPV6_LEN, LCAF, NO_ADDRESS, address_len, read_address,
    write_address,
};
use byteorder::{BigEndian, ByteOrder};
use ddt_path::{Form, Prefix, PrefixFault, Xeid};
use std::alloc::AllocError;
use thiserror::Error;

/// The first fault of an EID.
#[derive(Clone, Copy, Debug, PartialEq, Eq, Error)]
pub enum EidFault {
    /// A field passes the end.
    #[error("1 Short")]
    Short,
    /// The AFI isn't 1, 2 or 16387.
    #[error("2 EidFamily")]
    EidFamily,
    /// An LCAF isn't of type 2, or its inner AFI isn't 0, 1 or 2, or its length doesn't fit that.
    #[error("3 Lcaf")]
    Lcaf,
    /// A mask length is above the width: the EID mask-len of a block, or the IID mask-len of a range of instances.
    #[error("4 MaskLength")]
    MaskLength,
    /// A digit past the length of a range of instances isn't 0.
    #[error("5 TailNotZero")]
    TailNotZero,
}

/// The type of an LCAF that holds an Instance ID.
const INSTANCE_ID: u8 = 2;
/// How many bytes of an LCAF's content stand before the AFI inside it: the Instance ID.
const IID_LEN: u16 = 4;
/// The length of an LCAF with a range of instances.
const RANGE_LEN: u16 = IID_LEN + 2;
/// The length of an LCAF with an IPv4 address.
const IPV4_BLOCK_LEN: u16 = IID_LEN + IPV4_LEN as u16;
/// The length of an LCAF with an IPv6 address.
const IPV6_BLOCK_LEN: u16 = IID_LEN + IPV6_LEN as u16;
/// How many bytes an EID takes at most.
const LONGEST_EID: usize = 30;

/// The EID mask-len that is written for a prefix: a block's length, 0 for a range of instances.
pub fn mask_len(prefix: Prefix) -> u8
    ensures { result ≡ written_mask_len prefix }
{
    match prefix.form() {
        Form::Range { .. } => 0,
        Form::Block { len, .. } => len,
    }
}

/// Appends an LCAF of type 2 up to what stands inside it, of `inner` bytes.
fn put_instance(bytes: &mut Vec<u8>, mask: u8, iid: u32, inner: u16) -> Result<(), AllocError>
    requires { inner ≤ 18 }
    ensures written { OnOk result (bytes.new.items ≡ bytes.old.items ++ instance_head 0 0 mask iid inner) }
    ensures len { OnOk result (vec_len bytes.new ≡ vec_len bytes.old + 12) }
    ensures capacity { vec_capacity bytes.old ≤ vec_capacity bytes.new }
    ensures reserved { vec_len bytes.old + 12 ≤ vec_capacity bytes.old → IsOk result }
{
    bytes.extend_from_slice(&LCAF.to_be_bytes())?;
    bytes.extend_from_slice(&[0, 0, INSTANCE_ID, mask])?;
    bytes.extend_from_slice(&(IID_LEN + inner).to_be_bytes())?;
    bytes.extend_from_slice(&iid.to_be_bytes())
}

/// Appends the EID of a form. It succeeds where enough is reserved.
fn put_form(bytes: &mut Vec<u8>, form: Form) -> Result<(), AllocError>
    ensures written { OnOk result (bytes.new.items ≡ bytes.old.items ++ written_form form) }
    ensures capacity { vec_capacity bytes.old ≤ vec_capacity bytes.new }
    ensures reserved { vec_len bytes.old + 30 ≤ vec_capacity bytes.old → IsOk result }
{
    match form {
        Form::Range { iid, len } => {
            put_instance(bytes, len, iid, 2)?;
            bytes.extend_from_slice(&NO_ADDRESS.to_be_bytes())
        }
        Form::Block {
            iid: 0,
            address,
            ..
        } => write_address(bytes, address),
        Form::Block { iid, address, .. } => {
            put_instance(bytes, 0, iid, address_len(address))?;
            write_address(bytes, address)
        }
    }
}

/// Appends the EID of the prefix from its AFI on, 6 to 30 bytes: a block of instance 0 as its address, another block
/// and a range of instances as an LCAF of type 2 (RFC 8060, section 4.1). It succeeds where 30 bytes were reserved. Fails
/// only if out of memory, and then `bytes` is unchanged.
pub fn write_eid(bytes: &mut Vec<u8>, prefix: Prefix) -> Result<(), AllocError>
    ensures written { OnOk result (bytes.new.items ≡ bytes.old.items ++ written_eid prefix) }
    ensures spelled { OnOk result (SpellsEid (written_mask_len prefix) (written_eid prefix) prefix) }
    ensures path { IsPrefix prefix }
    ensures unchanged { OnErr result (bytes.new.items ≡ bytes.old.items) }
    ensures capacity { vec_capacity bytes.old ≤ vec_capacity bytes.new }
    ensures reserved { vec_len bytes.old + 30 ≤ vec_capacity bytes.old → IsOk result }
{
    bytes.reserve(LONGEST_EID)?;
    put_form(bytes, prefix.form())
}

/// The block of an instance whose address stands at the front, from its AFI on.
#[tactic(auto, using(crate::specs::laws::CutPrefix::cut_block), unfolding(crate::specs::Eid::block_at))]
fn read_block(bytes: &[u8], iid: u32, mask_len: u8) -> Result<(Prefix, usize), EidFault>
    ensures exact { result ≡ block_at iid mask_len bytes.now }
    ensures within { IfOk result (λ x. x.1 ≤ length bytes.now) }
{
    let (address, taken) = read_address(bytes).map_err(|fault| match fault {
        AddressFault::Short => EidFault::Short,
        AddressFault::Family => EidFault::EidFamily,
    })?;
    if mask_len > address.width() {
        return Err(EidFault::MaskLength);
    }
    Ok((Prefix::cut(Xeid { iid, address }, 33 + mask_len), taken))
}

/// What stands in an LCAF of type 2 whose length fits the AFI inside it.
#[tactic(auto, unfolding(crate::specs::Eid::inside_at))]
fn read_inside(bytes: &[u8], mask_len: u8) -> Result<(Prefix, usize), EidFault>
    requires { 14 ≤ length bytes.now }
    ensures exact { result ≡ inside_at mask_len bytes.now }
    ensures within { IfOk result (λ x. x.1 ≤ length bytes.now) }
{
    let iid = BigEndian::read_u32(&bytes[8..]);
    if BigEndian::read_u16(&bytes[12..]) == NO_ADDRESS {
        let range = Prefix::range(iid, bytes[5]).map_err(|fault| match fault {
            PrefixFault::Length => EidFault::MaskLength,
            PrefixFault::TailNotZero => EidFault::TailNotZero,
        })?;
        return Ok((range, 14));
    }
    let (block, taken) = read_block(&bytes[12..], iid, mask_len)?;
    Ok((block, 12 + taken))
}

/// An LCAF from its AFI on.
#[tactic(auto, unfolding(crate::specs::Eid::lcaf_at))]
fn read_lcaf(bytes: &[u8], mask_len: u8) -> Result<(Prefix, usize), EidFault>
    ensures exact { result ≡ lcaf_at mask_len bytes.now }
    ensures within { IfOk result (λ x. x.1 ≤ length bytes.now) }
{
    if bytes.len() < 8 {
        return Err(EidFault::Short);
    }
    if bytes[4] != INSTANCE_ID {
        return Err(EidFault::Lcaf);
    }
    if bytes.len() < 14 {
        return Err(EidFault::Short);
    }
    let len = BigEndian::read_u16(&bytes[6..]);
    let afi = BigEndian::read_u16(&bytes[12..]);
    if !fits_inside(afi, len) {
        return Err(EidFault::Lcaf);
    }
    read_inside(bytes, mask_len)
}

/// Whether an LCAF's length fits the AFI inside it, which is 0, 1 or 2.
fn fits_inside(afi: u16, len: u16) -> bool
    ensures { result ≡ has_length afi len }
{
    matches!(
        (afi, len),
        (NO_ADDRESS, RANGE_LEN) | (IPV4, IPV4_BLOCK_LEN) | (IPV6, IPV6_BLOCK_LEN)
    )
}

/// An EID from its AFI on.
#[tactic(auto, unfolding(crate::specs::Eid::eid_at))]
pub(crate) fn eid(bytes: &[u8], mask_len: u8) -> Result<(Prefix, usize), EidFault>
    ensures exact { result ≡ eid_at mask_len bytes.now }
    ensures within { IfOk result (λ x. x.1 ≤ length bytes.now) }
{
    if bytes.len() < 2 {
        return Err(EidFault::Short);
    }
    if BigEndian::read_u16(bytes) == LCAF {
        return read_lcaf(bytes, mask_len);
    }
    read_block(bytes, 0, mask_len)
}

/// The prefix at the front of the bytes, from its AFI on, beside the EID mask-len of its record, and how many bytes it
/// takes, 6 to 30 (RFC 8060, section 4.1). Address digits past the mask length are ignored. Refused, in this order:
///
/// - 1 Short: fewer than 2 bytes, so no AFI.
/// - 2 EidFamily: the AFI is none of 1, 2 and 16387.
/// - 1 Short: of AFI 16387, fewer than 8 bytes from this AFI on.
/// - 3 Lcaf: its type isn't 2.
/// - 1 Short: fewer than 14 bytes from this AFI on.
/// - 3 Lcaf: the inner AFI is none of 0, 1 and 2, or the length doesn't belong to it.
/// - 1 Short: the address is cut off.
/// - 4 MaskLength: a mask length above the width of the address, or above 32 for a range of instances.
/// - 5 TailNotZero: an Instance ID with digits past the length of its range.
pub fn read_eid(bytes: &[u8], mask_len: u8) -> Result<(Prefix, usize), EidFault>
    // The bytes that were taken spell what is read.
    ensures found { IfOk result (λ x. SpellsEid mask_len (take x.1 bytes.now) x.0 × (x.1 ≤ length bytes.now)) }
    // What stands spelled at the front is read.
    ensures only { (eid rest p : List ℕ) → SpellsEid mask_len eid p → bytes.now ≡ eid ++ rest
        → result ≡ Ok (p, length eid) }
    // Which fault it is.
    ensures exact { result ≡ eid_at mask_len bytes.now }
{
    eid(bytes, mask_len)
}
