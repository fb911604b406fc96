//! A record of a Map-Register (RFC 9301, sections 5.4 and 5.6).
//!
//! ```text
//!  0        1        2        3
//! +-----------------------------------+
//! |         TTL, in minutes           |   0
//! +--------+--------+---+-+-----------+
//! |locator |EID mask|ACT|A| reserved  |   4
//! | count  |  len   |   | |           |
//! +----+---+--------+---+-+-----------+
//! |    | map version|     EID-AFI     |   8
//! +----+------------+-----------------+
//! |  EID, then the locators ...       |  12
//! ```

ghost use Rattle.std.specs.Prelude.{◌≡◌, ◌≤◌, length};
ghost use Rattle.ddt_path.specs.Steps.{IsReadAs};
ghost use Rattle.ddt_map_register.specs.RegisterRecord.{record_at};

use crate::fault::MapRegisterFault;
use crate::registered_locators::RegisteredLocators;
use byteorder::{BigEndian, ByteOrder};
use ddt_path::Prefix;
use ddt_wire::{EidFault, read_eid};
use std::marker::Model;

/// How many bytes of a record there are before its EID's AFI.
const BEFORE_EID: usize = 10;

/// A record: a prefix with its TTL and its locators. It lends the datagram. Contracts see what it says.
#[derive(Debug, Drop)]
pub struct RegisterRecord<'a> {
    prefix: Prefix,
    ttl: u32,
    flags: u16,
    version: u16,
    locators: RegisteredLocators<'a>,
}

impl<'a> Model for RegisterRecord<'a> {
    ghost use Rattle.ddt_map_register.specs.RegisterRecord.{RegisterRecord as ARecord};

    ghost Value = { ARecord };

    ghost view = { λ a. record {
      prefix = a.prefix;
      ttl = a.ttl;
      flags = a.flags;
      version = a.version;
      locators = a.locators;
    } };
}

impl<'a> RegisterRecord<'a> {
    /// The prefix that is registered.
    pub fn prefix(&self) -> Prefix
        ensures { result ≡ self.now.prefix }
    {
        self.prefix
    }

    /// The TTL, in minutes.
    pub fn ttl(&self) -> u32
        ensures { result ≡ self.now.ttl }
    {
        self.ttl
    }

    /// ACT in the first three bits, then A: the record is authoritative.
    pub fn flags(&self) -> u16
        ensures { result ≡ self.now.flags }
    {
        self.flags
    }

    /// The map version in the last twelve bits.
    pub fn version(&self) -> u16
        ensures { result ≡ self.now.version }
    {
        self.version
    }

    /// All locators in order, read from the datagram.
    pub fn locators(&self) -> RegisteredLocators<'a>
        ensures { result ≡ self.now.locators }
    {
        self.locators.again()
    }
}

/// The record at the front, and the bytes after it.
#[tactic(auto, unfolding(crate::specs::RegisterRecord::record_at))]
pub(crate) fn read_record(bytes: &[u8]) -> Result<(RegisterRecord<'_>, &[u8]), MapRegisterFault>
    ensures { IsReadAs (λ x. (x.0, x.1.now)) result (record_at bytes.now) }
{
    if bytes.len() < BEFORE_EID + 2 {
        return Err(MapRegisterFault::Short);
    }
    let (_before, from_eid) = bytes.split_at(BEFORE_EID);
    let (prefix, taken) = read_eid(from_eid, bytes[5]).map_err(|fault| match fault {
        EidFault::Short => MapRegisterFault::Short,
        EidFault::EidFamily => MapRegisterFault::EidFamily,
        EidFault::Lcaf => MapRegisterFault::Lcaf,
        EidFault::MaskLength => MapRegisterFault::MaskLength,
        EidFault::TailNotZero => MapRegisterFault::TailNotZero,
    })?;
    let (_eid, from_locators) = from_eid.split_at(taken);
    let (locators, rest) = RegisteredLocators::read(bytes[4], from_locators)?;
    let record = RegisterRecord {
        prefix,
        ttl: BigEndian::read_u32(bytes),
        flags: BigEndian::read_u16(&bytes[6..]),
        version: BigEndian::read_u16(&bytes[8..]),
        locators,
    };
    Ok((record, rest))
}
