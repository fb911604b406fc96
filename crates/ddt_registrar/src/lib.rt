//! The registrar of a Map-Server: which Map-Registers are accepted, what is registered, and until when (RFC 9301,
//! sections 5.6 and 8.2). A server that follows the registrar answers by a configuration in which only the ETRs of
//! keyed sites differ. And the lines of the file that keeps registrations over a restart.
//!
//! In reading order: `key`, `sender`, `registration`, `keyed_site`, `refusal`, `register_checks`,
//! `site_change`, `received_register`, `ranked_etrs`, `registrar`; `clock`, `saved_site`, `saved_sites`.
//! Tests: tests/crates/daemon/registrations/registrar.
#![tactic(auto)]

mod clock;
mod key;
mod keyed_site;
mod lists;
mod ranked_etrs;
mod received_register;
mod refusal;
mod register_checks;
mod registrar;
mod registration;
mod saved_site;
mod saved_sites;
mod sender;
mod site_change;

pub use clock::Clock;
pub use key::{Key, Replay};
pub use keyed_site::KeyedSite;
pub use received_register::ReceivedRegister;
pub use refusal::{NotAdded, Refusal};
pub use registrar::Registrar;
pub use registration::{LastNonce, Registration};
pub use saved_site::{push_etrs, push_sender, push_site};
pub use saved_sites::{NotRestored, SAVED_HEADER, restore_sites};
pub use sender::Sender;
