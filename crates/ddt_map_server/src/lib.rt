//! A Map-Server whose sites' ETRs register: it accepts or drops each Map-Register, counts it, and sends the Map-Notify
//! (RFC 9301, sections 5.6, 5.7 and 8.2). And the file of the keys under which the ETRs register.
//!
//! In reading order: `register_outcome`, `register_counts`, `registering`, `source_rate_limit`,
//! `changed_sites`, `map_server`; `keys`.
//! Tests: tests/crates/daemon/registrations/registering and keys.
#![tactic(auto)]

mod changed_sites;
pub mod keys;
mod map_server;
mod register_counts;
mod register_outcome;
mod registering;
mod source_rate_limit;

pub use changed_sites::ChangedSites;
pub use map_server::MapServer;
pub use register_counts::RegisterCounts;
pub use register_outcome::RegisterOutcome;
pub use registering::{ReceivedDatagram, is_map_register, register};
pub use source_rate_limit::SourceRateLimit;
