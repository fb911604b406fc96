//! What calls over wires in memory gave and sent.

use ddt_path::Locator;
use ddt_sockets::Call;

pub const SERVER: Locator = Locator::V4(0x7f00_0101);

pub const RESOLVER: Locator = Locator::V4(0x7f00_0035);

pub const ETR: Locator = Locator::V4(0x7f00_0201);

/// Whether a call polled the server's socket and gave these bytes, from the resolver's port.
pub fn gave(call: Option<&Call>, port: u16, bytes: &[u8]) -> bool {
    match call {
        Some(
            Call::Received {
                at,
                answer: Ok(Some(packet)),
                bytes: given,
                ..
            },
        ) => {
            let is_its_own = packet.from == RESOLVER && packet.port == port;
            *at == SERVER && is_its_own && given.as_slice() == bytes
        }
        _ => false,
    }
}

/// Whether a call tried to send these bytes from the server's socket.
pub fn tried(call: Option<&Call>, to: Locator, port: u16, bytes: &[u8]) -> bool {
    match call {
        Some(
            Call::Tried {
                at,
                to: addressee,
                port: number,
                bytes: sent,
                ..
            },
        ) => { *at == SERVER && *addressee == to && *number == port && sent.as_slice() == bytes }
        _ => false,
    }
}
