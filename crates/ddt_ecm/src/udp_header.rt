//! The UDP header inside an Encapsulated Control Message (RFC 768).
//!
//! ```text
//!  0        1        2        3
//! +--------+--------+--------+--------+
//! |   source port   | port 4342       |   0
//! +-----------------+-----------------+
//! |     length      |    checksum     |   4
//! +-----------------+-----------------+
//! |  Map-Request ...                  |   8
//! ```

ghost use Rattle.std.specs.Prelude.{◌≡◌, ◌≤◌, ◌++◌, length, OnOk};
ghost use Rattle.ddt_path.specs.Steps.{IsReadAs};
ghost use Rattle.ddt_ecm.specs.UdpHeader.{control_port, udp_at, udp_fields, written_udp};

use crate::fault::RequestFault;
use crate::ones_sum::{VALID, sum};
use byteorder::{BigEndian, ByteOrder};
use std::alloc::AllocError;

/// The UDP port of LISP control messages (RFC 9301, section 5).
pub const CONTROL_PORT: u16 = 4342;
/// How many bytes a UDP header has.
pub(crate) const UDP_HEADER: usize = 8;

// Where fields begin.
const DESTINATION: usize = 2;

const LENGTH: usize = 4;

const CHECKSUM: usize = 6;

/// The source port and the data of a UDP datagram, behind a pseudo-header of this sum.
#[tactic(auto, unfolding(crate::specs::UdpHeader::udp_at))]
pub(crate) fn read_udp(pseudo: u16, udp: &[u8]) -> Result<(u16, &[u8]), RequestFault>
    requires { 8 ≤ length udp.now }
    ensures { IsReadAs (λ x. (x.0, x.1.now)) result (udp_at pseudo udp.now) }
{
    if usize::from(BigEndian::read_u16(&udp[LENGTH..])) != udp.len() {
        return Err(RequestFault::UdpLength);
    }
    if BigEndian::read_u16(&udp[CHECKSUM..]) != 0 && sum(pseudo, udp) != VALID {
        return Err(RequestFault::UdpChecksum);
    }
    if BigEndian::read_u16(&udp[DESTINATION..]) != CONTROL_PORT {
        return Err(RequestFault::Port);
    }
    let (_header, data) = udp.split_at(UDP_HEADER);
    Ok((BigEndian::read_u16(udp), data))
}

/// A UDP header from port 4342 to port 4342.
fn udp_header(len: u16, checksum: u16) -> [u8; 8]
    ensures { result ≡ udp_fields control_port len checksum }
{
    let mut header = [0; UDP_HEADER];
    header[..DESTINATION].copy_from_slice(&CONTROL_PORT.to_be_bytes());
    header[DESTINATION..LENGTH].copy_from_slice(&CONTROL_PORT.to_be_bytes());
    header[LENGTH..CHECKSUM].copy_from_slice(&len.to_be_bytes());
    header[CHECKSUM..].copy_from_slice(&checksum.to_be_bytes());
    header
}

/// Appends a UDP datagram behind a pseudo-header of this sum.
#[tactic(auto, unfolding(crate::specs::UdpHeader::written_udp))]
pub(crate) fn put_udp(bytes: &mut Vec<u8>, pseudo: u16, message: &[u8]) -> Result<(), AllocError>
    requires { length message.now ≤ 1000 }
    ensures { OnOk result (bytes.new.items ≡ bytes.old.items ++ written_udp pseudo message.now) }
{
    let len = 8 + message.len() as u16;
    let checksum = VALID - sum(sum(pseudo, &udp_header(len, 0)), message);
    let checksum = if checksum == 0 { VALID } else { checksum };
    bytes.extend_from_slice(&udp_header(len, checksum))?;
    bytes.extend_from_slice(message)
}
