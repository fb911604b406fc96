//! The settings of a Map-Resolver: the servers of the root, the locators where it listens, and the ITRs that may ask
//! it; and the settings of a server: the ITRs that may ask it.
//!
//! In reading order: `fault`, `rloc_prefix`, `members`, `resolver_settings`, `server_settings`, `document`.
//! Tests: tests/crates/daemon/settings.

mod document;
mod fault;
mod members;
mod resolver_settings;
mod rloc_prefix;
mod server_settings;

pub use document::{from_table, from_toml};
pub use fault::{Key, SettingsFault};
pub use resolver_settings::Settings;
pub use rloc_prefix::{RlocPrefix, parse_rloc_prefix};
pub use server_settings::ServerSettings;
