//! Wires over the UDP sockets of the system.

ghost use Rattle.std.specs.Prelude.{◌≤◌, length, IfOk, IfSome};

use crate::ip_addresses::ip_of;
use crate::udp_socket::{receive_from, send_from};
use crate::wire_calls::{NetFault, Packet};
use crate::wires::Wires;
use ddt_ecm::CONTROL_PORT;
use ddt_path::Locator;
use std::alloc::Global;
use std::io;
use std::net::{Net, SocketAddr, UdpSocket};
use std::time::Duration;

/// The time for which `receive` waits for a datagram, and `send` for room, in milliseconds.
const WAIT: u64 = 5;

/// A socket and the address that it is bound to.
#[derive(Drop)]
struct Bound {
    at: Locator,
    socket: UdpSocket,
    /// Whether a read of the socket waits for a datagram.
    waits: bool,
}

impl Bound {
    /// Receives a datagram that is there; with `waits`, also one that comes within 5 milliseconds.
    fn receive(&mut self, waits: bool, buffer: &mut [u8]) -> Result<Option<Packet>, NetFault>
        ensures fits { IfOk result (λ answer. IfSome answer (λ packet. packet.len ≤ length buffer.new)) }
    {
        if self.waits != waits {
            if self.socket.set_nonblocking(!waits).is_err() {
                return Err(NetFault::Receive);
            }
            self.waits = waits;
        }
        receive_from(&self.socket, buffer)
    }
}

/// Wires over UDP sockets at port 4342. They don't record their calls.
///
/// The system is trusted, without a contract: that `receive` returns what came to the socket, and that `send` sends the
/// bytes that it accepts. `receive` waits for up to 5 milliseconds if no other socket has anything to receive: since
/// the last packet and the last `send`, as many calls of `receive` as there are other sockets returned no packet.
/// Otherwise it returns what is there. A `send` waits for room as long, but not at all on a socket at which the last
/// `receive` didn't wait; without room it is refused as 2 Send. An empty datagram is a packet without bytes.
///
/// A datagram that fills the whole buffer is refused as 1 Receive, since its end may be cut off, and so is one whose
/// source isn't an address and a port; that datagram alone is lost. A locator that no socket is bound to is refused as
/// 1 Receive or 2 Send. Only `bind` allocates.
#[derive(Drop)]
pub struct UdpWires {
    sockets: Vec<Bound>,
    /// The number of calls of `receive` without a packet since the last packet, `send` or `bind`.
    in_vain: usize,
}

impl UdpWires {
    /// Creates wires without a socket.
    pub fn new(alloc: Global) -> UdpWires {
        UdpWires {
            sockets: Vec::new(alloc),
            in_vain: 0,
        }
    }

    /// Binds a socket to a locator at UDP port 4342. Refused if the system refuses it, or if out of memory.
    pub fn bind<N: Net>(&mut self, net: &N, at: Locator) -> io::Result<()> {
        let socket = UdpSocket::bind(net, SocketAddr::new(ip_of(at), CONTROL_PORT))?;
        socket.set_read_timeout(Some(Duration::from_millis(WAIT)))?;
        socket.set_write_timeout(Some(Duration::from_millis(WAIT)))?;
        self.sockets.push(Bound {
            at,
            socket,
            waits: true,
        })?;
        self.in_vain = 0;
        Ok(())
    }

    /// Receives a datagram at the socket of a locator.
    fn receive_at(&mut self, at: Locator, buffer: &mut [u8]) -> Result<Option<Packet>, NetFault>
        ensures fits { IfOk result (λ answer. IfSome answer (λ packet. packet.len ≤ length buffer.new)) }
    {
        // As many polls as there are other sockets found no packet.
        let waits = self.in_vain >= self.sockets.len().saturating_sub(1);
        match self.sockets.as_slice().iter().position(|b| b.at == at) {
            Some(place) => self.sockets[place].receive(waits, buffer),
            None => Err(NetFault::Receive),
        }
    }

    fn socket(&self, at: Locator) -> Option<&UdpSocket> {
        let bound = self.sockets.as_slice().iter().find(|b| b.at == at)?;
        Some(&bound.socket)
    }
}

impl Wires for UdpWires {
    fn receive(&mut self, at: Locator, buffer: &mut [u8]) -> Result<Option<Packet>, NetFault> {
        let answer = self.receive_at(at, buffer);
        self.in_vain = match answer {
            Ok(Some(_packet)) => 0,
            Ok(None) | Err(_) => self.in_vain.saturating_add(1),
        };
        answer
    }

    fn send(&mut self, at: Locator, to: Locator, port: u16, bytes: &[u8]) -> Result<(), NetFault> {
        self.in_vain = 0;
        match self.socket(at) {
            Some(socket) => send_from(socket, to, port, bytes),
            None => Err(NetFault::Send),
        }
    }
}
