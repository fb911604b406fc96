//! A server of one configuration: which Map-Referral answers an identifier, and what the server sends for a datagram.
//!
//! In reading order: `server`, `served_authority`, `delegations`, `place_index`, `configuration`, `decision` (the
//! longest authority that covers an identifier, and the answer of it), `site_etrs`, `forward`, `datagram`.
//! Tests: tests/crates/server/node.
#![tactic(auto)]

mod configuration;
mod datagram;
mod decision;
mod delegations;
mod forward;
mod place_index;
mod served_authority;
mod server;
mod site_etrs;

pub use configuration::config_in;
pub use datagram::{BufferedReply, Handled};
pub use forward::{Forward, clear_ddt_bit};
pub use place_index::{has_room_for, places};
pub use served_authority::ServedAuthority;
pub use server::Server;
