//! Locators as IP addresses of the system's sockets.

ghost use Rattle.std.specs.Prelude.{◌≡◌};
ghost use Rattle.ddt_sockets.specs.Addresses.{locator_at, IsAddressOf};

use ddt_path::Locator;
use std::net::{IpAddr, Ipv4Addr, Ipv6Addr};

/// Returns the IP address of a locator.
pub fn ip_of(locator: Locator) -> IpAddr
    ensures { IsAddressOf result locator }
{
    match locator {
        Locator::V4(number) => IpAddr::V4(Ipv4Addr::from_bits(number)),
        Locator::V6(number) => IpAddr::V6(Ipv6Addr::from_bits(number)),
    }
}

/// Returns the locator of an IP address.
pub fn locator_of(ip: IpAddr) -> Locator
    ensures { result ≡ locator_at ip }
{
    match ip {
        IpAddr::V4(ip) => Locator::V4(ip.to_bits()),
        IpAddr::V6(ip) => Locator::V6(ip.to_bits()),
    }
}
