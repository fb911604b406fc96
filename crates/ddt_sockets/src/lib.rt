//! The sockets of servers and resolvers: where datagrams come from and go to, and the turns of a server over them.
//!
//! In reading order: `wire_calls`, `wires`, `server_turns`, `wires_in_memory`, `ip_addresses`, `udp_socket`,
//! `udp_wires`, `polled_wires`, `nonces`.
//! Tests: tests/crates/server/wires and polled.
#![tactic(auto)]

mod ip_addresses;
pub mod nonces;
mod polled_wires;
mod server_turns;
mod udp_socket;
mod udp_wires;
mod wire_calls;
mod wires;
mod wires_in_memory;

pub use ip_addresses::{ip_of, locator_of};
pub use polled_wires::PolledWires;
pub use server_turns::{MOST_BYTES, Outbox, Served, serve_turn, serve_turns};
pub use udp_wires::UdpWires;
pub use wire_calls::{Call, NetFault, Packet};
pub use wires::Wires;
pub use wires_in_memory::{WaitingDatagram, WiresInMemory};
