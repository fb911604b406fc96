//! The keys of a Map-Server: the file of the secrets under which the ETRs of its sites register, and the keys of each
//! site of a configuration.
//!
//! In reading order: `fault`, `members`, `secret`, `site_key`, `key_file`; `sites`, `keyring`, `keyrings`,
//! `keyed_sites`.
//! Tests: tests/crates/daemon/registrations/keys.

mod fault;
mod key_file;
mod keyring;
mod keyrings;
mod members;
mod secret;
mod site_key;
mod sites;
mod sites_with_keys;

pub use fault::{KeysFault, Member};
pub use key_file::{read_keys, read_keys_text};
pub use secret::LONGEST_SECRET;
pub use site_key::SiteKey;
pub use sites_with_keys::keyed_sites;
