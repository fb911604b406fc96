//! Loopback addresses: the program binds sockets to no others.

ghost use Rattle.std.specs.Prelude.{◌≡◌};
ghost use Rattle.ddt_commands.specs.Loopback.{first_outside as first_outside_of, is_loopback as is_loopback_of};

use ddt_path::Locator;

/// The first byte of each loopback address of IPv4 (RFC 1122, section 3.2.1.3).
const LOOPBACK: u32 = 127;

/// Whether an address is one of 127.0.0.0/8.
pub fn is_loopback(address: Locator) -> bool
    ensures { result ≡ is_loopback_of address }
{
    match address {
        Locator::V4(number) => number >> 24 == LOOPBACK,
        Locator::V6(_number) => false,
    }
}

/// The first of the addresses that isn't one of 127.0.0.0/8.
pub fn first_outside(addresses: &[Locator]) -> Option<Locator>
    ensures { result ≡ first_outside_of addresses.now }
{
    addresses.iter().copied().find(|at| !is_loopback(*at))
}
