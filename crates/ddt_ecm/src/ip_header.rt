//! The IP packet inside an Encapsulated Control Message: IPv4 or IPv6, with a whole UDP datagram.

ghost use Rattle.std.specs.Prelude.{◌≡◌, ◌≤◌, ◌++◌, length, OnOk, IfOk};
ghost use Rattle.ddt_path.specs.Steps.{IsReadAs};
ghost use Rattle.ddt_ecm.specs.IpHeader.{ip_at, source4 as source4_of, source6 as source6_of, packet};

use crate::fault::RequestFault;
use crate::ipv4_header::{LEAST, addresses4, pseudo_sum4, put_ipv4, read_ipv4};
use crate::ipv6_header::{addresses6, pseudo_sum6, put_ipv6, read_ipv6};
use crate::udp_header::{UDP_HEADER, put_udp};
use ddt_path::Locator;
use std::alloc::AllocError;

/// The protocol number of UDP.
pub(crate) const UDP: u8 = 17;
/// How many bits stand behind the version in the first byte.
pub(crate) const VERSION_SHIFT: u32 = 4;
/// The time to live, or hop limit, of a written packet.
pub(crate) const HOP_LIMIT: u8 = 64;
/// How many bytes a written IPv4 header and a UDP header have.
const BOTH_HEADERS: u16 = (LEAST + UDP_HEADER) as u16;

/// The sum of the pseudo-header and the UDP datagram behind an IP header.
#[tactic(auto, unfolding(crate::specs::IpHeader::ip_at))]
pub(crate) fn read_ip(ip: &[u8]) -> Result<(u16, &[u8]), RequestFault>
    ensures exact { IsReadAs (λ x. (x.0, x.1.now)) result (ip_at ip.now) }
    ensures len { IfOk result (λ x. 8 ≤ length x.1.now) }
{
    if ip.is_empty() {
        return Err(RequestFault::Short);
    }
    match ip[0] >> VERSION_SHIFT {
        4 => read_ipv4(ip),
        6 => read_ipv6(ip),
        _ => Err(RequestFault::IpVersion),
    }
}

/// The source address of an IPv4 packet.
fn source4(rlocs: &[Locator]) -> u32
    ensures { result ≡ source4_of rlocs.now }
{
    match rlocs {
        [Locator::V4(number), ..] => *number,
        _ => 0,
    }
}

/// The source address of an IPv6 packet.
fn source6(rlocs: &[Locator]) -> u128
    ensures { result ≡ source6_of rlocs.now }
{
    match rlocs {
        [Locator::V6(number), ..] => *number,
        _ => 0,
    }
}

/// Appends the packet to an identifier's address, from the first ITR-RLOC where it has the same family.
pub(crate) fn put_packet(
    bytes: &mut Vec<u8>,
    to: Locator,
    rlocs: &[Locator],
    message: &[u8],
) -> Result<(), AllocError>
    requires { length message.now ≤ 1000 }
    ensures { OnOk result (bytes.new.items ≡ bytes.old.items ++ packet to rlocs.now message.now) }
{
    let len = UDP_HEADER as u16 + message.len() as u16;
    match to {
        Locator::V4(number) => {
            let source = source4(rlocs);
            put_ipv4(bytes, BOTH_HEADERS + message.len() as u16, source, number)?;
            let pseudo = pseudo_sum4(&addresses4(source, number), len);
            put_udp(bytes, pseudo, message)
        }
        Locator::V6(number) => {
            let addresses = addresses6(source6(rlocs), number);
            put_ipv6(bytes, len, &addresses)?;
            put_udp(bytes, pseudo_sum6(&addresses, u32::from(len)), message)
        }
    }
}
