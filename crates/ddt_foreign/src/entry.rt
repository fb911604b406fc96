//! A locator of a foreign record (RFC 8111, section 6.4).
//!
//! ```text
//!  0        1        2          3
//! +--------+--------+----------+----------+
//! |priority| weight |M priority| M weight |   0
//! +--------+--------+----------+----------+
//! |      flags      |         AFI         |   4
//! +-----------------+---------------------+
//! |  address, 4 or 16 bytes ...           |   8
//! ```
//!
//! With AFI 16387 an LCAF follows (RFC 8060, section 3): two ignored bytes, its type, a reserved byte, the length of
//! the rest in two bytes, and the rest. Of type 11 the rest is (RFC 8060, section 4.7):
//!
//! ```text
//! +--------+--------+----------+----------+
//! |key     |reserved|   key    | reserved,|   0
//! | count  |        |algorithm |    R     |
//! +--------+--------+----------+----------+
//! |   key length    |  key ...            |   so often
//! +-----------------+---------------------+
//! |       AFI       |  address ...        |
//! ```

ghost use Rattle.std.specs.Prelude.{◌≡◌, ◌≤◌, length};
ghost use Rattle.ddt_path.specs.Steps.{IsReadAs};
ghost use Rattle.ddt_wire.specs.Address.{address_at};
ghost use Rattle.ddt_foreign.specs.Entry.{address_or_none, owner_in, inner_address, lcaf_at, entry_at};

use crate::fault::ForeignFault;
use crate::sections::{KEY_HEAD, pass_all};
use byteorder::{BigEndian, ByteOrder};
use ddt_path::Locator;
use ddt_wire::{AddressFault, LCAF, NO_ADDRESS, read_address};

/// How many bytes there are before the AFI.
const BEFORE_AFI: usize = 6;
/// How many bytes there are before what an LCAF holds.
const BEFORE_INNER: usize = 14;
/// How many bytes there are before the keys in an LCAF of type 11.
const BEFORE_KEYS: usize = 4;
/// The type of an LCAF that holds keys and the address that owns them.
pub(crate) const SECURITY_KEY: u8 = 11;

/// A locator of a foreign record.
#[derive(Clone, Copy, Debug)]
pub struct Entry {
    pub priority: u8,
    /// The address; None where none is known.
    pub address: Option<Locator>,
}

/// The address at the front, if any.
pub(crate) fn address_of(bytes: &[u8]) -> Option<Locator>
    ensures { result ≡ address_or_none (address_at bytes.now) }
{
    match read_address(bytes) {
        Ok((address, _taken)) => Some(address),
        Err(_fault) => None,
    }
}

/// The address in an LCAF of type 11.
#[tactic(auto, unfolding(crate::specs::Entry::owner_in))]
pub(crate) fn owner(inner: &[u8]) -> Option<Locator>
    ensures { result ≡ owner_in inner.now }
{
    if inner.len() < BEFORE_KEYS {
        return None;
    }
    match pass_all(KEY_HEAD, 0, inner[0], &inner[BEFORE_KEYS..]) {
        Ok(rest) => address_of(rest),
        Err(_fault) => None,
    }
}

/// The address in an LCAF of this type with this content.
fn address_inside(lcaf_type: u8, inner: &[u8]) -> Option<Locator>
    ensures { result ≡ inner_address lcaf_type inner.now }
{
    if lcaf_type == SECURITY_KEY {
        owner(inner)
    } else {
        None
    }
}

/// A locator with an LCAF, and the bytes after it.
#[tactic(auto, unfolding(crate::specs::Entry::lcaf_at))]
fn read_lcaf(bytes: &[u8]) -> Result<(Entry, &[u8]), ForeignFault>
    ensures { IsReadAs (λ x. (x.0, x.1.now)) result (lcaf_at bytes.now) }
{
    if bytes.len() < BEFORE_INNER {
        return Err(ForeignFault::Short);
    }
    let inner_len = BigEndian::read_u16(&bytes[12..]) as usize;
    let len = BEFORE_INNER + inner_len;
    if bytes.len() < len {
        return Err(ForeignFault::Short);
    }
    let (_before, from_inner) = bytes.split_at(BEFORE_INNER);
    let (inner, _after) = from_inner.split_at(inner_len);
    let (_entry, rest) = bytes.split_at(len);
    let entry = Entry {
        priority: bytes[0],
        address: address_inside(bytes[10], inner),
    };
    Ok((entry, rest))
}

/// The locator at the front, and the bytes after it.
#[tactic(auto, unfolding(crate::specs::Entry::entry_at))]
pub(crate) fn read_entry(bytes: &[u8]) -> Result<(Entry, &[u8]), ForeignFault>
    ensures { IsReadAs (λ x. (x.0, x.1.now)) result (entry_at bytes.now) }
{
    if bytes.len() < BEFORE_AFI + 2 {
        return Err(ForeignFault::Short);
    }
    let afi = BigEndian::read_u16(&bytes[BEFORE_AFI..]);
    if afi == LCAF {
        return read_lcaf(bytes);
    }
    let priority = bytes[0];
    if afi == NO_ADDRESS {
        let (_entry, rest) = bytes.split_at(BEFORE_AFI + 2);
        return Ok((
            Entry {
                priority,
                address: None,
            },
            rest,
        ));
    }
    let (_before, from_afi) = bytes.split_at(BEFORE_AFI);
    let (address, taken) = read_address(from_afi).map_err(|fault| match fault {
        AddressFault::Short => ForeignFault::Short,
        AddressFault::Family => ForeignFault::UnrecognizedAfi,
    })?;
    let (_address, rest) = from_afi.split_at(taken);
    Ok((
        Entry {
            priority,
            address: Some(address),
        },
        rest,
    ))
}
