//! Encapsulated Map-Requests: the one spelling that is written, and what any bytes say.
//!
//! In reading order: `fault`; `request`, and below it each header as they stand in the bytes: `ecm_header`,
//! `ip_header` (`ipv4_header` or `ipv6_header`), `udp_header`, `map_request`; `checksum`, `laws`.
//! Tests: tests/crates/format/messages/ecm.
#![tactic(auto)]

mod ecm_header;
mod fault;
mod ip_header;
mod ipv4_header;
mod ipv6_header;
mod laws;
mod map_request;
mod ones_sum;
mod request;
mod udp_header;

pub use ecm_header::DDT;
pub use fault::RequestFault;
pub use laws::request_laws;
pub use map_request::Rlocs;
pub use request::{Request, read_inner, read_request, write_request};
pub use udp_header::CONTROL_PORT;
