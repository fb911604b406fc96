//! The addresses of servers on one machine.

ghost use Rattle.std.specs.Prelude.{◌≡◌, ◌≤◌, ◌<◌, ◌+◌, IfOk, map};
ghost use Rattle.std.specs.List.{range_with_len};
ghost use Rattle.ddt_deploy.specs.Loopback.Addresses.{most_servers, server_address as address_of_server};

use ddt_path::Locator;
use std::alloc::{AllocError, Global};

/// The address of the resolver of `ddt loop`, 127.0.0.53. No server gets it.
pub const RESOLVER: Locator = Locator::V4(0x7f00_0035);

/// The number of 127.0.0.0.
const NETWORK: u32 = 0x7f00_0000;

/// The number of addresses between 127.0.0.0 and that of the resolver.
const BELOW_RESOLVER: usize = 52;

/// Returns the address of the server with this number, from 0.
pub(crate) fn server_address(number: usize) -> Locator
    requires { number < most_servers }
    ensures { result ≡ address_of_server number }
{
    let skipped = if number < BELOW_RESOLVER { 1 } else { 2 };
    Locator::V4(NETWORK + skipped + number as u32)
}

/// Returns the addresses of `count` servers, from the number `first`.
pub(crate) fn server_addresses(
    alloc: Global,
    first: usize,
    count: usize,
) -> Result<Vec<Locator>, AllocError>
    requires { first + count ≤ most_servers }
    ensures { IfOk result (λ addresses. addresses.items ≡ map address_of_server (range_with_len first count)) }
{
    let mut addresses = Vec::with_capacity(alloc, count)?;
    for place in 0..count {
        addresses.push(server_address(first + place))?;
    }
    Ok(addresses)
}
