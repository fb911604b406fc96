//! One UDP socket of the system: receiving a datagram, and sending one.

ghost use Rattle.std.specs.Prelude.{◌≤◌, length, IfOk, IfSome};

use crate::ip_addresses::{ip_of, locator_of};
use crate::wire_calls::{NetFault, Packet};
use ddt_path::Locator;
use std::io::ErrorKind;
use std::net::{SocketAddr, UdpSocket};

/// Receives the next datagram into the front of the buffer; None if none comes before the socket's timeout. Refused as
/// 1 Receive if the system refuses it, or if it fills the whole buffer: its end may be cut off.
pub fn receive_from(socket: &UdpSocket, buffer: &mut [u8]) -> Result<Option<Packet>, NetFault>
    ensures fits { IfOk result (λ answer. IfSome answer (λ packet. packet.len ≤ length buffer.new)) }
{
    match socket.recv_from(buffer) {
        Ok((len, source)) if len < buffer.len() => Ok(Some(Packet {
            from: locator_of(source.ip()),
            port: source.port(),
            len,
        })),
        Err(error) if error.kind() == ErrorKind::WouldBlock => Ok(None),
        Ok(_) | Err(_) => Err(NetFault::Receive),
    }
}

/// Sends a datagram to an address and UDP port. Refused as 2 Send if the system doesn't accept the whole datagram.
pub fn send_from(socket: &UdpSocket, to: Locator, port: u16, bytes: &[u8]) -> Result<(), NetFault> {
    match socket.send_to(bytes, SocketAddr::new(ip_of(to), port)) {
        Ok(len) if len == bytes.len() => Ok(()),
        Ok(_) | Err(_) => Err(NetFault::Send),
    }
}
