//! Wires over UDP sockets, with one wait for all of them.

use crate::ip_addresses::ip_of;
use crate::udp_socket::{receive_from, send_from};
use crate::wire_calls::{NetFault, Packet};
use crate::wires::Wires;
use ddt_path::Locator;
use libc::net::{POLLIN, poll};
use libc::types::pollfd;
use std::alloc::{AllocError, Global};
use std::io;
use std::net::{Net, SocketAddr, UdpSocket};
use std::os::fd::{AsRawFd, RawFd};

/// A socket, the locator that it serves, and the address that it is bound to.
#[derive(Drop)]
struct Bound {
    at: Locator,
    address: Locator,
    socket: UdpSocket,
}

/// Wires over UDP sockets. They don't record their calls. One call waits for all sockets, and for other descriptors.
///
/// The system is trusted, without a contract: that `receive` returns what came to a socket, and that `send` sends the
/// bytes that it accepts. Several sockets may serve one locator: `receive` takes a datagram from each in turn, and
/// `send` uses the first that is bound to an address of the receiver's family.
///
/// Neither waits. If no datagram is there, `receive` returns None; if the socket has no room, `send` is refused as
/// 2 Send. A datagram that fills the whole buffer is refused as 1 Receive, since its end may be cut off. A locator with
/// no such socket is refused as 1 Receive or 2 Send. Only `bind` and `watch` allocate.
#[derive(Drop)]
pub struct PolledWires {
    sockets: Vec<Bound>,
    /// The sockets and other descriptors that `wait` polls, with its last result for each.
    polled: Vec<pollfd>,
    /// The index of the socket at which the next `receive` looks first.
    turn: usize,
}

impl PolledWires {
    /// Creates wires without a socket.
    pub fn new(alloc: Global) -> PolledWires {
        PolledWires {
            sockets: Vec::new(alloc),
            polled: Vec::new(alloc),
            turn: 0,
        }
    }

    /// Binds a socket to an address and a UDP port, 0 for one of the system's choice. The socket serves the locator
    /// `at`. Refused if the system refuses it, or if out of memory.
    pub fn bind<N: Net>(
        &mut self,
        net: &N,
        at: Locator,
        address: Locator,
        port: u16,
    ) -> io::Result<()> {
        let socket = UdpSocket::bind(net, SocketAddr::new(ip_of(address), port))?;
        socket.set_nonblocking(true)?;
        let descriptor = socket.as_raw_fd();
        // With room for its descriptor, a bound socket is always watched.
        self.polled.reserve(1)?;
        self.sockets.push(Bound {
            at,
            address,
            socket,
        })?;
        self.watch(descriptor)?;
        Ok(())
    }

    /// Adds a descriptor to those that `wait` polls for input. Fails only if out of memory.
    pub fn watch(&mut self, descriptor: RawFd) -> Result<(), AllocError> {
        match self.polled.push(pollfd {
            fd: descriptor,
            events: POLLIN,
            revents: 0,
        }) {
            Ok(()) => Ok(()),
            Err(_refused) => Err(AllocError),
        }
    }

    /// Removes a descriptor from those that `wait` polls. Call it before the descriptor is closed.
    pub fn forget(&mut self, descriptor: RawFd) {
        self.polled.retain(|polled| polled.fd != descriptor);
    }

    /// Waits for at most `millis` milliseconds until a socket has a datagram or a watched descriptor has input. Returns
    /// false if the system refuses to wait, as at a signal: then nothing is ready.
    pub fn wait(&mut self, millis: u16) -> bool {
        for polled in self.polled.iter_mut() {
            polled.revents = 0;
        }
        poll(self.polled.as_mut_slice(), i32::from(millis)) >= 0
    }

    /// Whether the last `wait` found input or an error at a descriptor.
    pub fn is_ready(&self, descriptor: RawFd) -> bool {
        self.polled
            .as_slice()
            .iter()
            .any(|polled| polled.fd == descriptor && polled.revents != 0)
    }

    /// Whether the last `wait` found input or an error at a socket of a locator.
    pub fn is_ready_at(&self, at: Locator) -> bool {
        self.sockets.as_slice().iter().any(|bound| bound.at == at
            && self.is_ready(bound.socket.as_raw_fd()))
    }

    fn has_socket_at(&self, at: Locator) -> bool {
        self.sockets.as_slice().iter().any(|bound| bound.at == at)
    }

    /// The socket of a locator that sends to an address.
    fn socket_to(&self, at: Locator, to: Locator) -> Option<&UdpSocket> {
        let bound = self.sockets.as_slice().iter().find(|bound| bound.at == at
            && is_same_family(bound.address, to))?;
        Some(&bound.socket)
    }
}

fn is_same_family(one: Locator, other: Locator) -> bool {
    one.width() == other.width()
}

impl Wires for PolledWires {
    fn receive(&mut self, at: Locator, buffer: &mut [u8]) -> Result<Option<Packet>, NetFault> {
        let count = self.sockets.len();
        for later in 0..count {
            let place = self.turn.wrapping_add(later) % count;
            let bound = &self.sockets[place];
            if bound.at == at {
                match receive_from(&bound.socket, buffer) {
                    Ok(None) => {}
                    answer => {
                        self.turn = place.wrapping_add(1);
                        return answer;
                    }
                }
            }
        }
        if self.has_socket_at(at) {
            Ok(None)
        } else {
            Err(NetFault::Receive)
        }
    }

    fn send(&mut self, at: Locator, to: Locator, port: u16, bytes: &[u8]) -> Result<(), NetFault> {
        match self.socket_to(at, to) {
            Some(socket) => send_from(socket, to, port, bytes),
            None => Err(NetFault::Send),
        }
    }
}
