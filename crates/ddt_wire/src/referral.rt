//! A Map-Referral of one record (RFC 8111, section 6.4).
//!
//! ```text
//!  0        1        2        3
//! +----+---+--------+--------+--------+
//! |  6 |     reserved        | count 1|   0
//! +----+---+--------+--------+--------+
//! |              nonce                |   4
//! |                                   |   8
//! +-----------------------------------+
//! |         TTL, in minutes           |  12
//! +--------+--------+---+-+-+---------+
//! |referral|EID mask|ACT|A|I| reserved|  16
//! |  count |   len  |   | | |         |
//! +----+---+--------+---+-+-+---------+
//! |sigs| map version|     EID-AFI     |  20
//! +----+------------+-----------------+
//! |  EID, then the locators ...       |  24
//! ```
//!
//! A, the map version and the reserved bits are ignored.

ghost use Rattle.std.specs.Prelude.{◌≡◌, ◌<◌, ◌≤◌, true, [], length, Ok, IfOk, OnOk, OnErr};
ghost use Rattle.ddt_path.specs.Locators.{most_locators};
ghost use Rattle.ddt_wire.specs.Referral.{written, written_head, lent_record, flags_of, action_in, message_in, Spells, Message, message_of, message_record};

use crate::address::AddressFault;
use crate::eid::{EidFault, eid, mask_len, write_eid};
use crate::fault::ReferralFault;
use crate::head::{ACT, BEFORE_EID, Head, HeadFault, put_head, read_head};
use crate::locator_record::{Locators, put_locators};
use crate::message_type::MAP_REFERRAL;
use ddt_path::{Action, Locator, LocatorSet, Prefix, ReferralRecord};
use std::alloc::{AllocError, Global};
use std::marker::Model;

/// The bytes of a Map-Referral whose EID, of another instance than 0, and 8 locators are IPv6.
const MOST_BYTES: usize = 244;
/// The bit A in the flags.
const AUTHORITATIVE: u16 = 1 << 12;
/// The bit I in the flags.
const INCOMPLETE: u16 = 1 << 11;
/// The place of SigCnt before the map version.
const SIGNATURE: u16 = 1 << 12;
/// SigCnt 0 and map version 0.
const NOT_SIGNED: u16 = 0;

/// The record of a Map-Referral that is to be written. It lends its referral set, of at most 8 locators.
#[derive(Clone, Copy, Debug)]
pub struct LentRecord<'a> {
    pub action: Action,
    /// The prefix that the answer holds for.
    pub prefix: Prefix,
    /// How long it may be kept, in minutes.
    pub ttl: u32,
    /// The Incomplete bit: the referral set isn't the whole of it.
    pub incomplete: bool,
    /// The referral set.
    pub servers: &'a [Locator],
}

impl<'a> LentRecord<'a> {
    /// The same record, whose referral set is lent.
    pub fn of(record: &'a ReferralRecord) -> LentRecord<'a>
        ensures same { lent_record result ≡ record.now }
        ensures few { length result.servers.now ≤ most_locators }
    {
        LentRecord {
            action: record.action,
            prefix: record.prefix,
            ttl: record.ttl,
            incomplete: record.incomplete,
            servers: record.servers.as_slice(),
        }
    }

    /// The record with a referral set of its own.
    pub fn to_record(&self) -> ReferralRecord
        requires { length self.now.servers.now ≤ most_locators }
        ensures { result ≡ lent_record self.now }
    {
        let LentRecord {
            action,
            prefix,
            ttl,
            incomplete,
            servers,
        } = *self;
        ReferralRecord {
            action,
            prefix,
            ttl,
            incomplete,
            servers: LocatorSet::of_few(servers),
        }
    }
}

/// The flags of a record; A is written 1.
fn flags(referral: &LentRecord<'_>) -> u16
    ensures { result ≡ flags_of referral.now.action true referral.now.incomplete 0 }
{
    let incomplete = if referral.incomplete { INCOMPLETE } else { 0 };
    u16::from(referral.action.number()) * ACT + AUTHORITATIVE + incomplete
}

/// The head of the message of a record.
fn referral_head(nonce: u64, referral: &LentRecord<'_>) -> Head
    requires { length referral.now.servers.now ≤ most_locators }
    ensures { result ≡ written_head nonce (lent_record referral.now) }
{
    Head {
        nonce,
        ttl: referral.ttl,
        locators: referral.servers.len() as u8,
        mask_len: mask_len(referral.prefix),
        flags: flags(referral),
        version: NOT_SIGNED,
    }
}

/// Puts the message of this nonce and record in place of the bytes. Where it fails, some of it may stand there.
fn fill(bytes: &mut Vec<u8>, nonce: u64, referral: &LentRecord<'_>) -> Result<(), AllocError>
    requires { length referral.now.servers.now ≤ most_locators }
    ensures written { OnOk result (bytes.new.items ≡ written nonce (lent_record referral.now)) }
    ensures spelled { OnOk result (Spells bytes.new.items (message_of nonce (lent_record referral.now))) }
{
    let head = referral_head(nonce, referral);
    bytes.clear();
    bytes.reserve(MOST_BYTES)?;
    put_head(bytes, MAP_REFERRAL, &head)?;
    write_eid(bytes, referral.prefix)?;
    put_locators(bytes, referral.servers)?;
    Ok(())
}

/// Puts the one spelling of a Map-Referral with this nonce and record into a buffer, in place of what that holds: A is
/// 1, no signature, map version 0, reserved bits 0. Each locator has priority 1, weight 100, multicast priority 255 and
/// weight 0, and the flag R. Fails only if out of memory, and then the buffer is empty.
pub fn put_referral(
    buffer: &mut Vec<u8>,
    nonce: u64,
    referral: &LentRecord<'_>,
) -> Result<(), AllocError>
    requires { length referral.now.servers.now ≤ most_locators }
    ensures written { OnOk result (buffer.new.items ≡ written nonce (lent_record referral.now)) }
    ensures spelled { OnOk result (Spells buffer.new.items (message_of nonce (lent_record referral.now))) }
    ensures emptied { OnErr result (buffer.new.items ≡ []) }
{
    let filled = fill(buffer, nonce, referral);
    if filled.is_err() {
        buffer.clear();
    }
    filled
}

/// The one spelling of a Map-Referral with this nonce and record, as `put_referral` writes it. Fails only if out of
/// memory.
pub fn write_referral(
    alloc: Global,
    nonce: u64,
    referral: &ReferralRecord,
) -> Result<Vec<u8>, AllocError>
    ensures written { IfOk result (λ bytes. bytes.items ≡ written nonce referral.now) }
    ensures spelled { IfOk result (λ bytes. Spells bytes.items (message_of nonce referral.now)) }
{
    let mut bytes = Vec::new(alloc);
    put_referral(&mut bytes, nonce, &LentRecord::of(referral))?;
    Ok(bytes)
}

/// What a Map-Referral says. It lends the datagram for its locators. Contracts see the message.
#[derive(Debug, Drop)]
pub struct Referral<'a> {
    nonce: u64,
    action: Action,
    prefix: Prefix,
    ttl: u32,
    incomplete: bool,
    locators: Locators<'a>,
}

impl<'a> Model for Referral<'a> {
    ghost use Rattle.ddt_wire.specs.Referral.{Message};

    ghost Value = { Message };

    ghost view = { λ a. record {
      nonce = a.nonce;
      action = a.action;
      prefix = a.prefix;
      ttl = a.ttl;
      incomplete = a.incomplete;
      locators = a.locators;
    } };
}

impl<'a> Referral<'a> {
    /// The nonce of the request that it answers.
    pub fn nonce(&self) -> u64
        ensures { result ≡ self.now.nonce }
    {
        self.nonce
    }

    /// The action.
    pub fn action(&self) -> Action
        ensures { result ≡ self.now.action }
    {
        self.action
    }

    /// The prefix that the record holds for.
    pub fn prefix(&self) -> Prefix
        ensures { result ≡ self.now.prefix }
    {
        self.prefix
    }

    /// How long it may be kept, in minutes.
    pub fn ttl(&self) -> u32
        ensures { result ≡ self.now.ttl }
    {
        self.ttl
    }

    /// The bit I: the referral set isn't the whole of it.
    pub fn incomplete(&self) -> bool
        ensures { result ≡ self.now.incomplete }
    {
        self.incomplete
    }

    /// All locators of the referral set in order, read from the datagram.
    pub fn locators(&self) -> Locators<'a>
        ensures { result ≡ self.now.locators }
    {
        self.locators.again()
    }

    /// The record with its first eight locators.
    pub fn to_record(&self) -> ReferralRecord
        ensures { result ≡ message_record self.now }
    {
        ReferralRecord {
            action: self.action,
            prefix: self.prefix,
            ttl: self.ttl,
            incomplete: self.incomplete,
            servers: self.locators.again().first_eight(),
        }
    }
}

/// The action of a head whose record has no signature.
#[tactic(auto, unfolding(crate::specs::Referral::action_in))]
fn unsigned_action(head: &Head) -> Result<Action, ReferralFault>
    ensures { result ≡ action_in head.now }
{
    let action = Action::of_number((head.flags / ACT) as u8).ok_or(ReferralFault::BadAction)?;
    if head.version / SIGNATURE != 0 {
        return Err(ReferralFault::Signed);
    }
    Ok(action)
}

/// The Map-Referral that the bytes are, or the first fault.
#[tactic(auto, unfolding(crate::specs::Referral::message_in))]
fn message(bytes: &[u8]) -> Result<Referral<'_>, ReferralFault>
    ensures { result ≡ message_in bytes.now }
{
    let head = read_head(MAP_REFERRAL, bytes).map_err(|fault| match fault {
        HeadFault::Short => ReferralFault::Short,
        HeadFault::MessageType => ReferralFault::MessageType,
        HeadFault::RecordCount => ReferralFault::RecordCount,
    })?;
    let action = unsigned_action(&head)?;
    let (_before, from_eid) = bytes.split_at(BEFORE_EID);
    let (prefix, taken) = eid(from_eid, head.mask_len).map_err(|fault| match fault {
        EidFault::Short => ReferralFault::Short,
        EidFault::EidFamily => ReferralFault::EidFamily,
        EidFault::Lcaf => ReferralFault::Lcaf,
        EidFault::MaskLength => ReferralFault::MaskLength,
        EidFault::TailNotZero => ReferralFault::TailNotZero,
    })?;
    let (_eid, from_locators) = from_eid.split_at(taken);
    let (locators, rest) = Locators::read(head.locators, from_locators).map_err(
        |fault| match fault {
            AddressFault::Short => ReferralFault::Short,
            AddressFault::Family => ReferralFault::LocatorFamily,
        },
    )?;
    if !rest.is_empty() {
        return Err(ReferralFault::Trailing);
    }
    Ok(Referral {
        nonce: head.nonce,
        action,
        prefix,
        ttl: head.ttl,
        incomplete: head.flags / INCOMPLETE % 2 == 1,
        locators,
    })
}

/// What the datagram says, all of it being one Map-Referral of one record. Refused, in this order:
///
/// - 1 Short: fewer than 4 bytes.
/// - 2 MessageType: the first four bits aren't 6.
/// - 3 RecordCount: there isn't exactly one record.
/// - 1 Short: fewer than 24 bytes.
/// - 4 BadAction: ACT is 6 or 7.
/// - 5 Signed: SigCnt isn't 0.
/// - 6 EidFamily, 7 Lcaf, 1 Short, 8 MaskLength, 9 TailNotZero: the EID, as of `read_eid`.
/// - 1 Short: a locator of fewer than 8 bytes.
/// - 10 LocatorFamily: a locator's AFI is neither 1 nor 2.
/// - 1 Short: a locator's address is cut off.
/// - 11 Trailing: bytes after the last locator.
///
/// The bit A, the map version, reserved bits, and the priorities, weights and flags of locators are ignored (RFC 8111,
/// section 6.4).
pub fn read_referral(bytes: &[u8]) -> Result<Referral<'_>, ReferralFault>
    // The bytes spell what is read.
    ensures found { IfOk result (λ v. Spells bytes.now v) }
    // What they spell is read.
    ensures only { (v : Message) → Spells bytes.now v → result ≡ Ok v }
    // Which fault it is.
    ensures exact { result ≡ message_in bytes.now }
{
    message(bytes)
}
