//! An Encapsulated Map-Request (RFC 9301, section 5.8, with the D bit of RFC 8111, section 5).
//!
//! ```text
//!  0        1        2        3
//! +----+-+-+-------------------------+
//! |  8 |S|D|        ignored          |   0
//! +----+-+-+-------------------------+
//! |  IPv4 or IPv6 header ...         |   4
//! +----------------------------------+
//! |  UDP header, to port 4342        |
//! +----------------------------------+
//! |  Map-Request ...                 |
//! +----------------------------------+
//! ```

ghost use Rattle.std.specs.Prelude.{◌≡◌, ◌≤◌, length, Ok, IfOk, OnOk};
ghost use Rattle.ddt_path.specs.Steps.{IsReadAs};
ghost use Rattle.ddt_ecm.specs.Request.{Message, Spells, inner_in, message_in, written};
ghost use Rattle.ddt_ecm.specs.laws.Statements.{message_of};

use crate::ecm_header::{D_SHIFT, ecm_header, read_ecm};
use crate::fault::RequestFault;
use crate::ip_header::{put_packet, read_ip};
use crate::map_request::{Rlocs, map_request, read_map_request};
use crate::udp_header::read_udp;
use ddt_path::{Locator, Xeid};
use std::alloc::{AllocError, Global};
use std::marker::Model;

/// What an Encapsulated Map-Request says. It lends the datagram for its ITR-RLOCs. Contracts see the message.
#[derive(Debug, Drop)]
pub struct Request<'a> {
    nonce: u64,
    ddt: bool,
    port: u16,
    xeid: Xeid,
    rlocs: Rlocs<'a>,
}

impl<'a> Model for Request<'a> {
    ghost use Rattle.ddt_ecm.specs.Request.{Message};

    ghost Value = { Message };

    ghost view = { λ a. record { nonce = a.nonce; ddt = a.ddt; port = a.port; xeid = a.xeid; rlocs = a.rlocs } };
}

impl<'a> Request<'a> {
    /// The nonce, which the answer repeats.
    pub fn nonce(&self) -> u64
        ensures { result ≡ self.now.nonce }
    {
        self.nonce
    }

    /// The bit D: a DDT client asks, and no ITR.
    pub fn ddt(&self) -> bool
        ensures { result ≡ self.now.ddt }
    {
        self.ddt
    }

    /// The inner source port.
    pub fn port(&self) -> u16
        ensures { result ≡ self.now.port }
    {
        self.port
    }

    /// The identifier that is asked for.
    pub fn xeid(&self) -> Xeid
        ensures { result ≡ self.now.xeid }
    {
        self.xeid
    }

    /// All ITR-RLOCs in order, read from the datagram.
    pub fn itr_rlocs(&self) -> Rlocs<'a>
        ensures { result ≡ self.now.rlocs }
    {
        self.rlocs.again()
    }
}

/// The inner source port, and the LISP message inside an Encapsulated Control Message (RFC 9301, section 5.8), whatever
/// that message is. Refused, in this order, as 1 Short to 11 Port by `read_request`.
#[tactic(auto, unfolding(crate::specs::Request::inner_in))]
pub fn read_inner(bytes: &[u8]) -> Result<(u16, &[u8]), RequestFault>
    ensures exact { IsReadAs (λ x. (x.0, x.1.now)) result (inner_in bytes.now) }
    ensures first { OnOk result (1 ≤ length bytes.now) }
{
    let ip = read_ecm(bytes)?;
    let (pseudo, udp) = read_ip(ip)?;
    read_udp(pseudo, udp)
}

/// The request that the bytes are, or the first fault.
#[tactic(auto, unfolding(crate::specs::Request::message_in))]
fn message(bytes: &[u8]) -> Result<Request<'_>, RequestFault>
    ensures { result ≡ message_in bytes.now }
{
    let ip = read_ecm(bytes)?;
    let (pseudo, udp) = read_ip(ip)?;
    let (port, data) = read_udp(pseudo, udp)?;
    let (nonce, xeid, rlocs) = read_map_request(data)?;
    Ok(Request {
        nonce,
        ddt: (bytes[0] >> D_SHIFT) % 2 == 1,
        port,
        xeid,
        rlocs,
    })
}

/// What the datagram says, all of it being one Encapsulated Map-Request for one identifier (RFC 9301,
/// sections 5.2 and 5.8). Refused, in this order:
///
/// - 1 Short: fewer than 4 bytes.
/// - 2 MessageType: the first four bits aren't 8.
/// - 3 Security: the bit S is set.
/// - 1 Short: nothing after the four bytes.
/// - 4 IpVersion: the inner packet is neither IPv4 nor IPv6.
/// - 1 Short: fewer than 20 bytes of IPv4, or 40 of IPv6.
/// - 5 IpLength: a length of the IP header doesn't fit the bytes.
/// - 6 IpChecksum: the sum over the IPv4 header is wrong.
/// - 7 NotUdp: the inner protocol isn't UDP.
/// - 8 Fragment: the inner IPv4 packet is a fragment.
/// - 9 UdpLength: the UDP length isn't the number of bytes left.
/// - 10 UdpChecksum: the UDP checksum is wrong; a checksum of 0 counts as absent.
/// - 11 Port: the inner destination port isn't 4342.
/// - 1 Short: fewer than 12 bytes of the Map-Request.
/// - 12 RequestType: the inner message isn't a Map-Request.
/// - 13 RecordCount: there isn't exactly one record.
/// - 14 EidFamily, 1 Short: the source EID's AFI is none of 0, 1, 2 and 16387, or it is cut off.
/// - 17 RlocFamily, 1 Short: an ITR-RLOC's AFI is neither 1 nor 2, or it is cut off.
/// - 1 Short, 14 EidFamily, 15 Lcaf: the EID, as in a Map-Referral.
/// - 16 NotHost: the EID is a range of instances, or its mask length isn't 32 for IPv4 or 128 for IPv6.
/// - 18 Trailing: bytes after the EID, and the bit M is clear.
pub fn read_request(bytes: &[u8]) -> Result<Request<'_>, RequestFault>
    // The bytes spell what is read.
    ensures found { IfOk result (λ v. Spells bytes.now v) }
    // What they spell is read.
    ensures only { (v : Message) → Spells bytes.now v → result ≡ Ok v }
    // Which fault it is.
    ensures exact { result ≡ message_in bytes.now }
{
    message(bytes)
}

/// The headers of an Encapsulated Control Message, over IPv6, have as many bytes.
const MOST_HEADERS: usize = 52;

/// The one spelling of an Encapsulated Map-Request for the identifier with this nonce, these ITR-RLOCs, 1 to 32 of
/// them, and with the bit D or without. The inner packet has the identifier's family and goes to its address. Its
/// source is the address of the first ITR-RLOC, or all zeros where the two families differ. Both of its ports are 4342.
/// Fails only if out of memory.
pub fn write_request(
    alloc: Global,
    nonce: u64,
    x: Xeid,
    rlocs: &[Locator],
    ddt: bool,
) -> Result<Vec<u8>, AllocError>
    requires some { 1 ≤ length rlocs.now }
    requires few { length rlocs.now ≤ 32 }
    ensures written { IfOk result (λ bytes. bytes.items ≡ written nonce x rlocs.now ddt) }
    ensures spelled { IfOk result (λ bytes. Spells bytes.items (message_of nonce x rlocs.now ddt)) }
    // What was written is read again.
    ensures again { IfOk result (λ bytes. message_in bytes.items ≡ Ok (message_of nonce x rlocs.now ddt)) }
{
    let message = map_request(alloc, nonce, x, rlocs)?;
    let mut bytes = Vec::with_capacity(alloc, MOST_HEADERS + message.len())?;
    bytes.extend_from_slice(&ecm_header(ddt))?;
    put_packet(&mut bytes, x.address, rlocs, message.as_slice())?;
    Ok(bytes)
}
