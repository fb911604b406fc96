//! A locator of a registered record (RFC 9301, section 5.4).
//!
//! ```text
//!  0        1        2          3
//! +--------+--------+----------+----------+
//! |priority| weight |M priority| M weight |   0
//! +--------+--------+----------+----------+
//! |      flags      |         AFI         |   4
//! +-----------------+---------------------+
//! |  address, 4 or 16 bytes ...           |   8
//! ```
//!
//! With AFI 16387 an LCAF follows (RFC 8060, section 3): two ignored bytes, its type, a reserved byte, the length of
//! the rest in two bytes, and the rest.

ghost use Rattle.std.specs.Prelude.{◌≡◌, ◌≤◌, length};
ghost use Rattle.ddt_path.specs.Steps.{IsReadAs};
ghost use Rattle.ddt_map_register.specs.RegisteredLocator.{locator_at, passed_at, locator_of};

use crate::fault::MapRegisterFault;
use byteorder::{BigEndian, ByteOrder};
use ddt_path::Locator;
use ddt_wire::{AddressFault, LCAF, read_address};

/// How many bytes there are before the AFI.
const BEFORE_AFI: usize = 6;
/// How many bytes there are before what an LCAF holds.
const BEFORE_INNER: usize = 14;

/// A locator of a registered record.
#[derive(Clone, Copy, Debug)]
pub struct RegisteredLocator {
    pub priority: u8,
    pub weight: u8,
    pub multicast_priority: u8,
    pub multicast_weight: u8,
    /// L, p and R in the last three bits.
    pub flags: u16,
    /// The address; None where an LCAF is in its place.
    pub address: Option<Locator>,
}

impl RegisteredLocator {
    ghost use Rattle.std.specs.Prelude.{◌≡◌};
    ghost use Rattle.ddt_map_register.specs.RegisteredLocator.{is_reachable as is_reachable_of};

    /// The bit R: it can be reached from where it was registered.
    pub fn is_reachable(&self) -> bool
        ensures { result ≡ is_reachable_of self.now }
    {
        self.flags % 2 == 1
    }
}

/// The fields before the AFI, beside an address.
fn locator_with(bytes: &[u8], address: Option<Locator>) -> RegisteredLocator
    requires { 8 ≤ length bytes.now }
    ensures { result ≡ locator_of bytes.now address }
{
    RegisteredLocator {
        priority: bytes[0],
        weight: bytes[1],
        multicast_priority: bytes[2],
        multicast_weight: bytes[3],
        flags: BigEndian::read_u16(&bytes[4..]),
        address,
    }
}

/// A locator with an LCAF, and the bytes after it.
#[tactic(auto, unfolding(crate::specs::RegisteredLocator::passed_at))]
fn read_passed(bytes: &[u8]) -> Result<(RegisteredLocator, &[u8]), MapRegisterFault>
    ensures { IsReadAs (λ x. (x.0, x.1.now)) result (passed_at bytes.now) }
{
    if bytes.len() < BEFORE_INNER {
        return Err(MapRegisterFault::Short);
    }
    let len = BEFORE_INNER + BigEndian::read_u16(&bytes[12..]) as usize;
    if bytes.len() < len {
        return Err(MapRegisterFault::Short);
    }
    let (_locator, rest) = bytes.split_at(len);
    Ok((locator_with(bytes, None), rest))
}

/// The locator at the front, and the bytes after it.
#[tactic(auto, unfolding(crate::specs::RegisteredLocator::locator_at))]
pub(crate) fn read_locator(bytes: &[u8]) -> Result<(RegisteredLocator, &[u8]), MapRegisterFault>
    ensures { IsReadAs (λ x. (x.0, x.1.now)) result (locator_at bytes.now) }
{
    if bytes.len() < BEFORE_AFI + 2 {
        return Err(MapRegisterFault::Short);
    }
    if BigEndian::read_u16(&bytes[BEFORE_AFI..]) == LCAF {
        return read_passed(bytes);
    }
    let (_before, from_afi) = bytes.split_at(BEFORE_AFI);
    let (address, taken) = read_address(from_afi).map_err(|fault| match fault {
        AddressFault::Short => MapRegisterFault::Short,
        AddressFault::Family => MapRegisterFault::LocatorFamily,
    })?;
    let (_address, rest) = from_afi.split_at(taken);
    Ok((locator_with(bytes, Some(address)), rest))
}
