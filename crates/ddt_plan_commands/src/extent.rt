//! The number of blocks of some changes, and of the addresses that they cover.

ghost use Rattle.std.specs.Prelude.{◌≡◌, ◌^◌};
ghost use Rattle.ddt_plan_commands.specs.Effects.{capped, extent_with, ipv4_in as ipv4_in_of, ipv6_in as ipv6_in_of};

use ddt_path::Prefix;

/// A number of blocks, and of the addresses in them. The same address in two instances counts twice. Each number is at
/// most 2^128 - 1, and stays there: the IPv6 addresses of one instance are one more.
#[derive(Clone, Copy, Default, PartialEq, Eq)]
pub struct Extent {
    pub blocks: u128,
    pub ipv4: u128,
    pub ipv6: u128,
}

impl Extent {
    /// Returns the extent with one more block, if `counts`.
    pub(crate) fn with(self, counts: bool, prefix: Prefix) -> Extent
        ensures { result ≡ extent_with self counts prefix }
    {
        if !counts {
            return self;
        }
        Extent {
            blocks: self.blocks.saturating_add(1),
            ipv4: self.ipv4.saturating_add(ipv4_in(prefix)),
            ipv6: self.ipv6.saturating_add(ipv6_in(prefix)),
        }
    }
}

/// Returns the number of IPv4 addresses that a prefix covers, at most 2^128 - 1.
fn ipv4_in(prefix: Prefix) -> u128
    ensures { result ≡ capped (ipv4_in_of prefix) }
{
    match prefix.digit(32) {
        None => power_of_two(64u8.saturating_sub(prefix.len())),
        Some(4) => power_of_two(65u8.saturating_sub(prefix.len())),
        Some(_) => 0,
    }
}

/// Returns the number of IPv6 addresses that a prefix covers, at most 2^128 - 1.
fn ipv6_in(prefix: Prefix) -> u128
    ensures { result ≡ capped (ipv6_in_of prefix) }
{
    match prefix.digit(32) {
        None => power_of_two(160u8.saturating_sub(prefix.len())),
        Some(4) => 0,
        Some(_) => power_of_two(161u8.saturating_sub(prefix.len())),
    }
}

/// Returns a power of 2, at most 2^128 - 1.
fn power_of_two(exponent: u8) -> u128
    ensures { result ≡ capped (2 ^ exponent) }
{
    if exponent < 128 {
        1 << exponent
    } else {
        u128::MAX
    }
}
