//! Wires by which a resolver asks servers. Each request of a DDT client is sent with a random nonce (RFC 8111, section
//! 5; RFC 9301, section 5.2), and its reply is returned with the client's own nonce. They also record how each server
//! answers.
//!
//! In reading order: `outstanding_requests`, `servers`, `unsent_nonces`, `nonce_translator`, `call_log`,
//! `random_nonces`.

mod call_log;
mod nonce_translator;
mod outstanding_requests;
mod random_nonces;
mod servers;
mod unsent_nonces;

pub use outstanding_requests::{MOST_OUTSTANDING, Outstanding, Overdue, SentRequest};
pub use random_nonces::RandomNonces;
pub use servers::{MOST_SERVERS, RoundTrip, Server, Servers, SilenceChange};
pub use unsent_nonces::MOST_UNSENT;
