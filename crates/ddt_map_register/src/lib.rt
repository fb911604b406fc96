//! Map-Registers: what their bytes spell, whether they are authentic, and the Map-Notifies that acknowledge them (RFC
//! 9301, sections 5.6 and 5.7).
//!
//! In reading order: `hmac`, `fault`, `registered_locator`, `registered_locators`, `register_record`, `register_records`,
//! `register_head`, `authentication`, `map_register`, `map_notify`, `laws`.
//! Tests: tests/crates/daemon/registrations/reading, authenticity, notifies and refused.
#![tactic(auto)]

mod authentication;
mod fault;
pub mod hmac;
mod laws;
mod map_notify;
mod map_register;
mod register_head;
mod register_record;
mod register_records;
mod registered_locator;
mod registered_locators;

pub use authentication::{SHA1_96, SHA256_128};
pub use fault::MapRegisterFault;
pub use laws::notifies_are_short;
pub use map_notify::write_notify;
pub use map_register::{MapRegister, XtrId, read_register};
pub use register_head::RegisterHead;
pub use register_record::RegisterRecord;
pub use register_records::RegisterRecords;
pub use registered_locator::RegisteredLocator;
pub use registered_locators::RegisteredLocators;
