//! Wires over UDP sockets, whose `receive` waits for a datagram.

use ddt_ecm::CONTROL_PORT;
use ddt_path::Locator;
use ddt_sockets::{NetFault, Packet, PolledWires, Wires};
use std::alloc::Global;
use std::io;
use std::net::Net;

/// The longest wait of `receive` for a datagram, in milliseconds.
const WAIT: u16 = 10;

/// Wires over UDP sockets: one for IPv4 and one for IPv6, at ports of the system's choice, or one at an address. They
/// don't record their calls.
///
/// What the system does is trusted, as of `PolledWires`. If there is no datagram, `receive` waits up to 10
/// milliseconds for one, and returns none if the system refuses to wait. Only binding allocates.
#[derive(Drop)]
pub struct BlockingWires {
    wires: PolledWires,
}

impl BlockingWires {
    /// Binds one socket, of the locator `me`, to that address of this machine and to UDP port 4342, as ITRs and ETRs
    /// do. Fails with the system's error, or if out of memory.
    pub fn bind_at<N: Net>(alloc: Global, net: &N, me: Locator) -> io::Result<BlockingWires> {
        let mut wires = PolledWires::new(alloc);
        wires.bind(net, me, me, CONTROL_PORT)?;
        Ok(BlockingWires { wires })
    }

    /// Binds a socket for IPv4 and one for IPv6, both of the locator `me`. One family is enough. Fails with the
    /// system's error if it refuses both, or if out of memory.
    pub fn bind<N: Net>(alloc: Global, net: &N, me: Locator) -> io::Result<BlockingWires> {
        let mut wires = PolledWires::new(alloc);
        let over_ipv4 = wires.bind(net, me, Locator::V4(0), 0);
        let over_ipv6 = wires.bind(net, me, Locator::V6(0), 0);
        if over_ipv6.is_err() {
            over_ipv4?;
        }
        Ok(BlockingWires { wires })
    }
}

impl Wires for BlockingWires {
    fn receive(&mut self, at: Locator, buffer: &mut [u8]) -> Result<Option<Packet>, NetFault> {
        let _has_waited = self.wires.wait(WAIT);
        self.wires.receive(at, buffer)
    }

    fn send(&mut self, at: Locator, to: Locator, port: u16, bytes: &[u8]) -> Result<(), NetFault> {
        self.wires.send(at, to, port, bytes)
    }
}
