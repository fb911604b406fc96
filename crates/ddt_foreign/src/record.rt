//! A record of a foreign Map-Referral (RFC 8111, section 6.4).
//!
//! ```text
//!  0        1        2        3
//! +-----------------------------------+
//! |         TTL, in minutes           |   0
//! +--------+--------+---+-+-+---------+
//! |referral|EID mask|ACT|A|I| reserved|   4
//! | count  |  len   |   | | |         |
//! +----+---+--------+---+-+-+---------+
//! |sigs| map version|     EID-AFI     |   8
//! +----+------------+-----------------+
//! |  EID, then the locators ...       |  12
//! |  then the signature sections ...  |
//! ```

ghost use Rattle.std.specs.Prelude.{◌≡◌};
ghost use Rattle.ddt_path.specs.Steps.{IsReadAs};
ghost use Rattle.ddt_foreign.specs.Record.{record_at};

use crate::entries::Entries;
use crate::fault::ForeignFault;
use crate::sections::{SIGNATURE_HEAD, SIGNATURE_PLACE, pass_all};
use byteorder::{BigEndian, ByteOrder};
use ddt_path::Prefix;
use ddt_wire::{EidFault, read_eid};
use std::marker::Model;

/// How many bytes a record has before its EID's AFI.
const BEFORE_EID: usize = 10;
/// The place of SigCnt before the map version.
const SIGNATURE: u16 = 1 << 12;

/// A record: a prefix with its TTL and its locators. It lends the datagram. Contracts see what it says.
#[derive(Debug, Drop)]
pub struct ForeignRecord<'a> {
    pub(crate) prefix: Prefix,
    pub(crate) ttl: u32,
    pub(crate) flags: u16,
    pub(crate) locators: Entries<'a>,
}

impl<'a> Model for ForeignRecord<'a> {
    ghost use Rattle.ddt_foreign.specs.Record.{Foreign};

    ghost Value = { Foreign };

    ghost view = { λ a. record {
      prefix = a.prefix;
      ttl = a.ttl;
      flags = a.flags;
      locators = a.locators;
    } };
}

/// The record at the front, and the bytes after it.
#[tactic(auto, unfolding(crate::specs::Record::record_at))]
pub(crate) fn read_record(bytes: &[u8]) -> Result<(ForeignRecord<'_>, &[u8]), ForeignFault>
    ensures { IsReadAs (λ x. (x.0, x.1.now)) result (record_at bytes.now) }
{
    if bytes.len() < BEFORE_EID + 2 {
        return Err(ForeignFault::Short);
    }
    let (_before, from_eid) = bytes.split_at(BEFORE_EID);
    let (prefix, taken) = read_eid(from_eid, bytes[5]).map_err(|fault| match fault {
        EidFault::Short => ForeignFault::Short,
        EidFault::EidFamily => ForeignFault::EidFamily,
        EidFault::Lcaf => ForeignFault::Lcaf,
        EidFault::MaskLength => ForeignFault::MaskLength,
        EidFault::TailNotZero => ForeignFault::TailNotZero,
    })?;
    let (_eid, from_locators) = from_eid.split_at(taken);
    let (locators, from_signatures) = Entries::read(bytes[4], from_locators)?;
    let signatures = (BigEndian::read_u16(&bytes[8..]) / SIGNATURE) as u8;
    let rest = pass_all(SIGNATURE_HEAD, SIGNATURE_PLACE, signatures, from_signatures)?;
    let record = ForeignRecord {
        prefix,
        ttl: BigEndian::read_u32(bytes),
        flags: BigEndian::read_u16(&bytes[6..]),
        locators,
    };
    Ok((record, rest))
}
