//! An IPv6 header inside an Encapsulated Control Message, with a whole UDP datagram behind it (RFC 8200, section 3).
//!
//! ```text
//!  0        1        2        3
//! +----+--------------+--------------+
//! |  6 | traffic class and flow label|   0
//! +----+------------+--------+-------+
//! | payload length  |   17   |  hops |   4
//! +-----------------+--------+-------+
//! |     source address, 16 bytes     |   8
//! +----------------------------------+
//! |  destination address, 16 bytes   |  24
//! +----------------------------------+
//! |  UDP ...                         |  40
//! ```
//!
//! Traffic class, flow label and hops are ignored.

ghost use Rattle.std.specs.Prelude.{◌≡◌, ◌≤◌, ◌++◌, length, OnOk, IfOk};
ghost use Rattle.std.specs.Int.{w128, to_be_bytes};
ghost use Rattle.ddt_path.specs.Steps.{IsReadAs};
ghost use Rattle.ddt_ecm.specs.Checksum.{ones_sum};
ghost use Rattle.ddt_ecm.specs.Ipv6Header.{pseudo6, ipv6_at, ipv6_head};

use crate::fault::RequestFault;
use crate::ip_header::{HOP_LIMIT, UDP, VERSION_SHIFT};
use crate::ones_sum::sum;
use crate::udp_header::UDP_HEADER;
use byteorder::{BigEndian, ByteOrder};
use std::alloc::AllocError;

/// The first byte of a written IPv6 header.
const FIRST: u8 = 6 << VERSION_SHIFT;
/// How many bytes a header has.
const HEADER: usize = 40;

// Where fields begin.
const PAYLOAD_LENGTH: usize = 4;

const NEXT_HEADER: usize = 6;

const SOURCE: usize = 8;

/// The sum of a pseudo-header.
pub(crate) fn pseudo_sum6(addresses: &[u8], len: u32) -> u16
    requires { length addresses.now ≡ 32 }
    ensures { result ≡ ones_sum 0 (pseudo6 addresses.now len) }
{
    let start = sum(sum(0, addresses), &len.to_be_bytes());
    sum(start, &u32::from(UDP).to_be_bytes())
}

/// The sum of the pseudo-header and the UDP datagram behind a header.
#[tactic(auto, unfolding(crate::specs::Ipv6Header::ipv6_at))]
pub(crate) fn read_ipv6(ip: &[u8]) -> Result<(u16, &[u8]), RequestFault>
    ensures exact { IsReadAs (λ x. (x.0, x.1.now)) result (ipv6_at ip.now) }
    ensures len { IfOk result (λ x. 8 ≤ length x.1.now) }
{
    if ip.len() < HEADER {
        return Err(RequestFault::Short);
    }
    let (_fields, udp) = ip.split_at(HEADER);
    let len = BigEndian::read_u16(&ip[PAYLOAD_LENGTH..]);
    if usize::from(len) + HEADER != ip.len() || ip.len() < HEADER + UDP_HEADER {
        return Err(RequestFault::IpLength);
    }
    if ip[NEXT_HEADER] != UDP {
        return Err(RequestFault::NotUdp);
    }
    Ok((pseudo_sum6(&ip[SOURCE..HEADER], u32::from(len)), udp))
}

/// Two addresses, as in the header and the pseudo-header.
pub(crate) fn addresses6(source: u128, destination: u128) -> [u8; 32]
    ensures { result ≡ to_be_bytes w128 source ++ to_be_bytes w128 destination }
{
    let mut addresses = [0; 32];
    addresses[..16].copy_from_slice(&source.to_be_bytes());
    addresses[16..].copy_from_slice(&destination.to_be_bytes());
    addresses
}

/// Appends a header.
pub(crate) fn put_ipv6(
    bytes: &mut Vec<u8>,
    payload: u16,
    addresses: &[u8],
) -> Result<(), AllocError>
    ensures { OnOk result (bytes.new.items ≡ bytes.old.items ++ (ipv6_head payload ++ addresses.now)) }
{
    bytes.extend_from_slice(&[FIRST, 0, 0, 0])?;
    bytes.extend_from_slice(&payload.to_be_bytes())?;
    bytes.extend_from_slice(&[UDP, HOP_LIMIT])?;
    bytes.extend_from_slice(addresses)
}
