//! The calls of wires: arguments, packets, results.

use ddt_path::{Listed, Locator};
use thiserror::Error;

/// A received datagram, whose bytes are at the front of a buffer.
#[derive(Clone, Copy, Debug, PartialEq, Eq)]
pub struct Packet {
    /// The source address.
    pub from: Locator,
    /// The source UDP port.
    pub port: u16,
    /// The number of its bytes.
    pub len: usize,
}

/// Why a call of wires failed. It loses one datagram.
#[derive(Clone, Copy, Debug, PartialEq, Eq, Error)]
pub enum NetFault {
    /// A datagram couldn't be received.
    #[error("1 Receive")]
    Receive,
    /// A datagram couldn't be sent.
    #[error("2 Send")]
    Send,
}

/// A call of wires: its arguments, its result, and the bytes of a received packet.
#[derive(Debug, Drop)]
pub enum Call {
    /// A call of `receive`.
    Received {
        /// The socket that was polled.
        at: Locator,
        /// The length of the buffer, in bytes.
        room: usize,
        /// Its result.
        answer: Result<Option<Packet>, NetFault>,
        /// The packet's bytes; empty if no packet was received.
        bytes: Listed<u8>,
    },
    /// A call of `send`.
    Tried {
        /// The sending socket.
        at: Locator,
        /// The destination address.
        to: Locator,
        /// The destination UDP port.
        port: u16,
        /// The datagram.
        bytes: Listed<u8>,
        /// Its result.
        answer: Result<(), NetFault>,
    },
}
