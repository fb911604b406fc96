//! What is taken of a foreign Map-Referral for an identifier, in the one spelling.

ghost use Rattle.std.specs.Prelude.{◌≡◌, ◌≤◌, length, IfOk, IfSome, IsOk, OnErr, None};
ghost use Rattle.std.specs.Result.{IsErr};
ghost use Rattle.ddt_path.specs.Path.{xeid_path};
ghost use Rattle.ddt_path.specs.Steps.{IsReadAs};
ghost use Rattle.ddt_foreign.specs.Plain.{covering_at, foreign_in, nonce_of, action_in, kept_ttl, taken_in, plain_in, Gives};

use crate::fault::ForeignFault;
use crate::order::servers;
use crate::record::{ForeignRecord, read_record};
use byteorder::{BigEndian, ByteOrder};
use ddt_path::{Action, Listed, NOT_REGISTERED_TTL, Prefix, ReferralRecord, Xeid};
use ddt_wire::{MAP_REFERRAL, TYPE_SHIFT, write_referral};
use std::alloc::{AllocError, Global};

/// How many bytes there are before the first record.
const BEFORE_RECORDS: usize = 12;
/// The place of ACT in the flags.
const ACT: u16 = 1 << 13;
/// The bit I in the flags.
const INCOMPLETE: u16 = 1 << 11;

/// The first of so many records whose prefix covers the identifier.
fn covering(asked: Xeid, count: u8, bytes: &[u8]) -> Result<ForeignRecord<'_>, ForeignFault>
    ensures { IsReadAs (λ x. x) result (covering_at (xeid_path asked) count bytes.now) }
{
    let mut rest = bytes;
    for _ in 0..count {
        let (record, after) = read_record(rest)?;
        if record.prefix.covers_xeid(asked) {
            return Ok(record);
        }
        rest = after;
    }
    Err(ForeignFault::NotCovering)
}

/// The record that is taken for the identifier.
#[tactic(auto, unfolding(crate::specs::Plain::foreign_in))]
fn foreign(asked: Xeid, bytes: &[u8]) -> Result<ForeignRecord<'_>, ForeignFault>
    ensures exact { IsReadAs (λ x. x) result (foreign_in asked bytes.now) }
    ensures long { IfOk result (λ x. 12 ≤ length bytes.now) }
{
    if bytes.len() < BEFORE_RECORDS {
        return Err(ForeignFault::Short);
    }
    if bytes[0] >> TYPE_SHIFT != MAP_REFERRAL {
        return Err(ForeignFault::MessageType);
    }
    let (_head, records) = bytes.split_at(BEFORE_RECORDS);
    covering(asked, bytes[3], records)
}

/// The action of a record's flags.
fn action(flags: u16) -> Result<Action, ForeignFault>
    ensures { result ≡ action_in flags }
{
    Action::of_number((flags / ACT) as u8).ok_or(ForeignFault::BadAction)
}

/// How long a record is kept: an incomplete one not at all, one of MS-NOT-REGISTERED for a minute at most.
fn lifetime(action: Action, incomplete: bool, ttl: u32) -> u32
    ensures { result ≡ kept_ttl action incomplete ttl }
{
    if incomplete {
        return 0;
    }
    match action {
        Action::MsNotRegistered => ttl.min(NOT_REGISTERED_TTL),
        Action::NodeReferral
        | Action::MsReferral
        | Action::MsAck
        | Action::DelegationHole
        | Action::NotAuthoritative => ttl,
    }
}

/// What is taken of a foreign Map-Referral for an identifier: a nonce, and a record of the one spelling.
#[derive(Clone, Copy, Debug)]
pub struct Plain {
    pub nonce: u64,
    pub record: ReferralRecord,
}

/// What is taken of the foreign Map-Referral that the bytes are, for the identifier, or the first fault. The first
/// record that covers it is taken, and what follows that record is ignored; the fault is the outer Err only where
/// it ran out of memory for a record that is taken.
#[tactic(auto, unfolding(crate::specs::Plain::plain_in))]
pub fn read_foreign(
    alloc: Global,
    bytes: &[u8],
    asked: Xeid,
) -> Result<Result<Plain, ForeignFault>, AllocError>
    ensures exact { IfOk result (λ r. IsReadAs (λ x. x.record) r (plain_in asked bytes.now)) }
    ensures nonce { IfOk result (λ r. IfOk r (λ x. x.nonce ≡ nonce_of bytes.now)) }
    ensures wanted { OnErr result (IsOk (plain_in asked bytes.now)) }
{
    let (record, action) = match taken(asked, bytes) {
        Ok(parts) => parts,
        Err(fault) => return Ok(Err(fault)),
    };
    let incomplete = record.flags / INCOMPLETE % 2 == 1;
    let record = ReferralRecord {
        action,
        prefix: record.prefix,
        ttl: lifetime(action, incomplete, record.ttl),
        incomplete,
        servers: servers(alloc, &record.locators)?,
    };
    Ok(Ok(Plain {
        nonce: BigEndian::read_u64(&bytes[4..]),
        record,
    }))
}

/// The record that is taken for the identifier, with its action.
#[tactic(auto, unfolding(crate::specs::Plain::taken_in))]
fn taken(asked: Xeid, bytes: &[u8]) -> Result<(ForeignRecord<'_>, Action), ForeignFault>
    ensures exact { IsReadAs (λ x. x) result (taken_in asked bytes.now) }
    ensures long { IfOk result (λ x. 12 ≤ length bytes.now) }
{
    let record = foreign(asked, bytes)?;
    let action = action(record.flags)?;
    Ok((record, action))
}

/// The one spelling of what is taken of the foreign Map-Referral that the bytes are, for the identifier: bytes that are
/// read as the plain record with the same nonce. None exactly where nothing is taken. Fails only if out of memory for
/// what is taken.
pub fn plain_referral(
    alloc: Global,
    bytes: &[u8],
    asked: Xeid,
) -> Result<Option<Listed<u8>>, AllocError>
    ensures gives { IfOk result (λ o. IfSome o (λ given. Gives asked bytes.now given)) }
    ensures none { IfOk result (λ o. o ≡ None → IsErr (plain_in asked bytes.now)) }
    ensures wanted { OnErr result (IsOk (plain_in asked bytes.now)) }
{
    match read_foreign(alloc, bytes, asked)? {
        Ok(plain) => {
            let given = write_referral(alloc, plain.nonce, &plain.record)?;
            Ok(Some(Listed::of(given)))
        }
        Err(_fault) => Ok(None),
    }
}
