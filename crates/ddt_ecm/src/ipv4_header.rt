//! An IPv4 header inside an Encapsulated Control Message, with a whole UDP datagram behind it (RFC 791, section 3.1).
//!
//! ```text
//!  0        1        2        3
//! +----+----+--------+--------+--------+
//! |  4 |words|service|  total length   |   0
//! +----+----+--------+---+-------------+
//! | identification  |  |D|  fragment   |   4
//! +--------+--------+---+-------------+
//! |  hops  |   17   | header checksum |   8
//! +--------+--------+-----------------+
//! |          source address           |  12
//! +-----------------------------------+
//! |        destination address        |  16
//! +-----------------------------------+
//! |  options ..., then UDP ...        |  20
//! ```
//!
//! Service, identification, the reserved bit and the bit D (don't fragment), hops and options are ignored.

ghost use Rattle.std.specs.Prelude.{◌≡◌, ◌≤◌, ◌<◌, ◌+◌, ◌^◌, ◌++◌, true, length, OnOk, IfOk};
ghost use Rattle.std.specs.Int.{w32, to_be_bytes};
ghost use Rattle.ddt_path.specs.Steps.{IsReadAs};
ghost use Rattle.ddt_ecm.specs.Checksum.{ones_sum};
ghost use Rattle.ddt_ecm.specs.Ipv4Header.{pseudo4, header_len, has_length4, ipv4_at, ipv4_header as ipv4_header_of, written_ipv4};

use crate::fault::RequestFault;
use crate::ip_header::{HOP_LIMIT, UDP, VERSION_SHIFT};
use crate::ones_sum::{VALID, sum};
use crate::udp_header::UDP_HEADER;
use byteorder::{BigEndian, ByteOrder};
use std::alloc::AllocError;

/// The first byte of a written IPv4 header: version 4, and a header of five words.
const FIRST: u8 = 4 << VERSION_SHIFT | 5;
/// A header counts its words in the four bits behind the version.
const WORDS: u8 = (1 << 4) - 1;
/// More fragments, and the offset of this one, are told in the 14 bits behind don't-fragment.
const FRAGMENT: u16 = (1 << 14) - 1;
/// How many bytes a header has at least.
pub(crate) const LEAST: usize = 20;

// Where fields begin.
const TOTAL_LENGTH: usize = 2;

const IDENTIFICATION: usize = 4;

const FLAGS: usize = 6;

const HOPS: usize = 8;

const PROTOCOL: usize = 9;

const CHECKSUM: usize = 10;

const SOURCE: usize = 12;

const DESTINATION: usize = 16;

/// The sum of a pseudo-header.
pub(crate) fn pseudo_sum4(addresses: &[u8], len: u16) -> u16
    requires { length addresses.now ≡ 8 }
    ensures { result ≡ ones_sum 0 (pseudo4 addresses.now len) }
{
    let start = sum(sum(0, addresses), &[0, UDP]);
    sum(start, &len.to_be_bytes())
}

/// Whether the lengths of a header fit the bytes.
fn fits_ipv4(ip: &[u8], header: usize) -> bool
    requires long { 20 ≤ length ip.now }
    requires header { header ≡ header_len ip.now }
    ensures fits { result ≡ has_length4 ip.now }
    ensures small { result ≡ true → (length ip.now < 2 ^ 16) × (header + 8 ≤ length ip.now) }
{
    header >= LEAST
        && usize::from(BigEndian::read_u16(&ip[TOTAL_LENGTH..])) == ip.len()
        && header + UDP_HEADER <= ip.len()
}

/// The sum of the pseudo-header and the UDP datagram behind a header.
#[tactic(auto, unfolding(crate::specs::Ipv4Header::ipv4_at))]
pub(crate) fn read_ipv4(ip: &[u8]) -> Result<(u16, &[u8]), RequestFault>
    ensures exact { IsReadAs (λ x. (x.0, x.1.now)) result (ipv4_at ip.now) }
    ensures len { IfOk result (λ x. 8 ≤ length x.1.now) }
{
    if ip.len() < LEAST {
        return Err(RequestFault::Short);
    }
    let header = 4 * usize::from(ip[0] & WORDS);
    if !fits_ipv4(ip, header) {
        return Err(RequestFault::IpLength);
    }
    let (fields, udp) = ip.split_at(header);
    if sum(0, fields) != VALID {
        return Err(RequestFault::IpChecksum);
    }
    if ip[PROTOCOL] != UDP {
        return Err(RequestFault::NotUdp);
    }
    if BigEndian::read_u16(&ip[FLAGS..]) & FRAGMENT != 0 {
        return Err(RequestFault::Fragment);
    }
    Ok((pseudo_sum4(&ip[SOURCE..LEAST], udp.len() as u16), udp))
}

/// A header without options.
fn ipv4_header(total: u16, checksum: u16, source: u32, destination: u32) -> [u8; 20]
    ensures { result ≡ ipv4_header_of total checksum source destination }
{
    let mut header = [0; LEAST];
    header[0] = FIRST;
    header[TOTAL_LENGTH..IDENTIFICATION].copy_from_slice(&total.to_be_bytes());
    header[HOPS] = HOP_LIMIT;
    header[PROTOCOL] = UDP;
    header[CHECKSUM..SOURCE].copy_from_slice(&checksum.to_be_bytes());
    header[SOURCE..DESTINATION].copy_from_slice(&source.to_be_bytes());
    header[DESTINATION..].copy_from_slice(&destination.to_be_bytes());
    header
}

/// Appends a header with its checksum.
pub(crate) fn put_ipv4(
    bytes: &mut Vec<u8>,
    total: u16,
    source: u32,
    destination: u32,
) -> Result<(), AllocError>
    ensures { OnOk result (bytes.new.items ≡ bytes.old.items ++ written_ipv4 total source destination) }
{
    let checksum = VALID - sum(0, &ipv4_header(total, 0, source, destination));
    bytes.extend_from_slice(&ipv4_header(total, checksum, source, destination))
}

/// Two addresses, as in the pseudo-header.
pub(crate) fn addresses4(source: u32, destination: u32) -> [u8; 8]
    ensures { result ≡ to_be_bytes w32 source ++ to_be_bytes w32 destination }
{
    let mut addresses = [0; 8];
    addresses[..4].copy_from_slice(&source.to_be_bytes());
    addresses[4..].copy_from_slice(&destination.to_be_bytes());
    addresses
}
