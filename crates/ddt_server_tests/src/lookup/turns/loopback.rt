//! Wires in memory that deliver each datagram to the socket of its receiver.

ghost use Rattle.std.specs.Prelude.{◌≤◌, length, IfOk, IfSome};

use ddt_ecm::CONTROL_PORT;
use ddt_path::{Listed, Locator};
use ddt_sockets::{NetFault, Packet, WaitingDatagram, Wires};
use std::alloc::{AllocError, Global};

/// A loopback network. A datagram to UDP port 4342 of an address waits at the socket there; all sent datagrams are
/// kept, too. One call can be made to fail, which loses its datagram.
#[derive(Drop)]
pub struct Loopback {
    alloc: Global,
    waiting: Vec<WaitingDatagram>,
    sent: Vec<WaitingDatagram>,
    /// The numbers of calls, and of polls among them.
    made: u64,
    polled: u64,
    /// The number of datagrams that were to be sent before the first poll.
    sent_first: u64,
    /// The number of the call that fails; the first is 1, and with 0 none fails.
    failing: u64,
}

/// A datagram with these bytes; None if out of memory.
fn datagram(
    alloc: Global,
    at: Locator,
    from: Locator,
    port: u16,
    bytes: &[u8],
) -> Option<WaitingDatagram> {
    Some(WaitingDatagram {
        at,
        from,
        port,
        bytes: Listed::of(Vec::from_slice(alloc, bytes).ok()?),
    })
}

impl Loopback {
    /// Creates a network at which nothing waits, whose call of this number fails.
    pub fn new(alloc: Global, failing: u64) -> Loopback {
        Loopback {
            alloc,
            waiting: Vec::new(alloc),
            sent: Vec::new(alloc),
            made: 0,
            polled: 0,
            sent_first: 0,
            failing,
        }
    }

    /// Appends a datagram to those that wait. Fails only if out of memory.
    pub fn add(
        &mut self,
        at: Locator,
        from: Locator,
        port: u16,
        bytes: &[u8],
    ) -> Result<(), AllocError> {
        let Some(datagram) = datagram(self.alloc, at, from, port, bytes) else {
            return Err(AllocError);
        };
        self.waiting.push(datagram)?;
        Ok(())
    }

    /// The number of polls.
    pub fn polled(&self) -> u64 {
        self.polled
    }

    /// The number of datagrams that were to be sent before the first poll.
    pub fn sent_first(&self) -> u64 {
        self.sent_first
    }

    /// The number of calls.
    pub fn made(&self) -> u64 {
        self.made
    }

    /// The number of datagrams that were sent to an address and port.
    pub fn count_to(&self, to: Locator, port: u16) -> usize {
        self.sent
            .as_slice()
            .iter()
            .filter(|d| d.at == to && d.port == port)
            .count()
    }

    /// Whether these bytes were sent from an address to another address and port.
    pub fn went(&self, from: Locator, to: Locator, port: u16, bytes: &[u8]) -> bool {
        self.sent.as_slice().iter().any(|d| d.from == from
            && d.at == to
            && d.port == port
            && d.bytes.as_slice() == bytes)
    }

    /// Counts a call, and returns whether it fails.
    fn fails(&mut self) -> bool {
        self.made = self.made.saturating_add(1);
        self.made == self.failing
    }

    /// Removes the first datagram that waits at a socket.
    fn take_at(&mut self, at: Locator) -> Option<WaitingDatagram> {
        let place = self.waiting.as_slice().iter().position(|w| w.at == at)?;
        Some(self.waiting.remove(place))
    }

    /// Keeps a sent datagram, and lets it wait at its socket. Fails only if out of memory.
    fn deliver(
        &mut self,
        at: Locator,
        to: Locator,
        port: u16,
        bytes: &[u8],
    ) -> Result<(), AllocError> {
        let Some(sent) = datagram(self.alloc, to, at, port, bytes) else {
            return Err(AllocError);
        };
        self.sent.push(sent)?;
        if port == CONTROL_PORT {
            self.add(to, at, CONTROL_PORT, bytes)?;
        }
        Ok(())
    }
}

/// Writes a datagram to the front of the buffer. A datagram that is longer than the buffer is lost.
fn put(datagram: WaitingDatagram, buffer: &mut [u8]) -> Result<Option<Packet>, NetFault>
    ensures { IfOk result (λ answer. IfSome answer (λ packet. packet.len ≤ length buffer.new)) }
{
    let bytes = datagram.bytes.as_slice();
    let len = bytes.len();
    if len > buffer.len() {
        return Err(NetFault::Receive);
    }
    buffer[..len].copy_from_slice(bytes);
    Ok(Some(Packet {
        from: datagram.from,
        port: datagram.port,
        len,
    }))
}

impl Wires for Loopback {
    fn receive(&mut self, at: Locator, buffer: &mut [u8]) -> Result<Option<Packet>, NetFault> {
        self.polled = self.polled.saturating_add(1);
        let fails = self.fails();
        match self.take_at(at) {
            _ if fails => Err(NetFault::Receive),
            Some(datagram) => put(datagram, buffer),
            None => Ok(None),
        }
    }

    fn send(&mut self, at: Locator, to: Locator, port: u16, bytes: &[u8]) -> Result<(), NetFault> {
        if self.polled == 0 {
            self.sent_first = self.sent_first.saturating_add(1);
        }
        if self.fails() {
            return Err(NetFault::Send);
        }
        match self.deliver(at, to, port, bytes) {
            Ok(()) => Ok(()),
            Err(_refused) => Err(NetFault::Send),
        }
    }
}
