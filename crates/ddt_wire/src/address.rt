//! An address behind its AFI: 1 for IPv4, 2 for IPv6.
//!
//! ```text
//! +--------+--------+------------------------------+
//! |       AFI       |  address, 4 or 16 bytes ...  |
//! +--------+--------+------------------------------+
//! ```

ghost use Rattle.std.specs.Prelude.{◌≡◌, ◌+◌, ◌≤◌, ◌++◌, length, OnOk, OnErr, IfOk, IsOk, vec_len, vec_capacity};
ghost use Rattle.ddt_wire.specs.Address.{family_and_address, address_at, IsAddress};

use byteorder::{BigEndian, ByteOrder};
use ddt_path::Locator;
use std::alloc::AllocError;
use thiserror::Error;

/// The AFI where no address follows.
pub const NO_ADDRESS: u16 = 0;
/// The AFI of IPv4.
pub(crate) const IPV4: u16 = 1;
/// The AFI of IPv6.
pub(crate) const IPV6: u16 = 2;
/// The AFI of an LCAF (RFC 8060, section 3).
pub const LCAF: u16 = 16387;
/// How many bytes an IPv4 address takes with its AFI.
pub(crate) const IPV4_LEN: usize = 6;
/// How many bytes an IPv6 address takes with its AFI.
pub(crate) const IPV6_LEN: usize = 18;

/// Why no address stands at the front of bytes.
#[derive(Clone, Copy, Debug, PartialEq, Eq, Error)]
pub enum AddressFault {
    /// The AFI or the address is cut short.
    #[error("1 Short")]
    Short,
    /// The AFI is neither 1 nor 2.
    #[error("2 Family")]
    Family,
}

/// How many bytes an AFI and the address take: 6 or 18.
pub(crate) fn address_len(address: Locator) -> u16
    ensures len { result ≡ length (family_and_address address) }
    ensures bound { result ≤ 18 }
{
    match address {
        Locator::V4(_number) => IPV4_LEN as u16,
        Locator::V6(_number) => IPV6_LEN as u16,
    }
}

/// Appends the AFI and the address, 6 or 18 bytes. It succeeds where they were reserved. Fails only if out of memory,
/// and then `bytes` is unchanged.
pub fn write_address(bytes: &mut Vec<u8>, address: Locator) -> Result<(), AllocError>
    ensures written { OnOk result (bytes.new.items ≡ bytes.old.items ++ family_and_address address) }
    ensures unchanged { OnErr result (bytes.new.items ≡ bytes.old.items) }
    ensures fits { OnOk result (IsAddress address) }
    ensures capacity { vec_capacity bytes.old ≤ vec_capacity bytes.new }
    ensures reserved { vec_len bytes.old + length (family_and_address address) ≤ vec_capacity bytes.old → IsOk result }
{
    match address {
        Locator::V4(number) => {
            bytes.reserve(IPV4_LEN)?;
            bytes.extend_from_slice(&IPV4.to_be_bytes())?;
            bytes.extend_from_slice(&number.to_be_bytes())
        }
        Locator::V6(number) => {
            bytes.reserve(IPV6_LEN)?;
            bytes.extend_from_slice(&IPV6.to_be_bytes())?;
            bytes.extend_from_slice(&number.to_be_bytes())
        }
    }
}

/// The address at the front of the bytes, behind its AFI, and how many bytes both take: 6 or 18. Refused as 1
/// Short where the AFI is cut, then as 2 Family, then as 1 Short where the address is cut.
#[tactic(auto, unfolding(crate::specs::Address::address_at))]
pub fn read_address(bytes: &[u8]) -> Result<(Locator, usize), AddressFault>
    ensures exact { result ≡ address_at bytes.now }
    ensures within { IfOk result (λ x. x.1 ≤ length bytes.now) }
{
    if bytes.len() < 2 {
        return Err(AddressFault::Short);
    }
    let afi = BigEndian::read_u16(bytes);
    if afi == IPV4 {
        if bytes.len() < IPV4_LEN {
            return Err(AddressFault::Short);
        }
        return Ok((Locator::V4(BigEndian::read_u32(&bytes[2..])), IPV4_LEN));
    }
    if afi == IPV6 {
        if bytes.len() < IPV6_LEN {
            return Err(AddressFault::Short);
        }
        return Ok((Locator::V6(BigEndian::read_u128(&bytes[2..])), IPV6_LEN));
    }
    Err(AddressFault::Family)
}
