//! A locator of a referral set.
//!
//! ```text
//!  0        1        2          3
//! +--------+--------+----------+----------+
//! |priority| weight |M priority| M weight |
//! +--------+--------+----------+----------+
//! |      flags      |         AFI         |
//! +-----------------+---------------------+
//! |  address, 4 or 16 bytes ...           |
//! ```
//!
//! All but AFI and address is ignored (RFC 9301, section 5.4).

ghost use Rattle.std.specs.Prelude.{◌≡◌, ◌++◌, All, OnOk};
ghost use Rattle.std.specs.List.{flat_map};
ghost use Rattle.ddt_wire.specs.Address.{IsAddress};
ghost use Rattle.ddt_wire.specs.LocatorRecord.{written_locator};

use crate::addresses::{Addresses, write_addresses};
use ddt_path::Locator;
use std::alloc::AllocError;

/// What stands before the AFI of a locator that is written: priority 1, weight 100, multicast priority 255 (none) and
/// weight 0, and the flag R, with which the locator is reachable.
const BEFORE_AFI: [u8; 6] = [1, 100, 255, 0, 0, 1];

/// Appends the records of the locators, in order.
pub(crate) fn put_locators(bytes: &mut Vec<u8>, locators: &[Locator]) -> Result<(), AllocError>
    ensures written { OnOk result (bytes.new.items ≡ bytes.old.items ++ flat_map written_locator locators.now) }
    ensures fit { OnOk result (All IsAddress locators.now) }
{
    write_addresses(bytes, &BEFORE_AFI, locators)
}

/// The locators of a referral set in order, read from the datagram one by one; 6 bytes stand before the AFI of each.
pub type Locators<'a> = Addresses<'a, 6>;
