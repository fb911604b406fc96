//! The configuration of a server group, its shape and its text; the seal that detects a text that was cut or edited;
//! and the settings of a server and of a Map-Resolver.
//!
//! In reading order: `fault`, `members`, `values`, `config_item`, `child`, `site_entry`, `authority`, `config`,
//! `neighbours`, `shape`, `place`, `document`, `laws`, `digest`, `settings`. Tests: tests/crates/register/config.
#![tactic(auto)]

mod authority;
mod child;
mod config;
mod config_item;
pub mod digest;
mod document;
mod fault;
mod laws;
mod members;
mod neighbours;
mod place;
pub mod settings;
mod shape;
mod site_entry;
mod values;

pub use authority::{Authority, Content};
pub use child::Child;
pub use config::ServerConfig;
pub use document::{from_table, from_toml, read_table, to_table, to_toml};
pub use fault::{ConfigFault, Key};
pub use laws::{a_fault_is_at_its_place, a_table_is_read_as_what_it_stands_for};
pub use place::{Place, PlacedFault};
pub use site_entry::SiteEntry;
