//! What a record of a Map-Register changes at its site, with all the memory that the change takes.

use crate::registration::{LastNonce, Registration};
use ddt_path::Prefix;

/// The change of a site by a record.
#[derive(Drop)]
pub(crate) struct SiteChange {
    /// The prefix of the site.
    pub(crate) prefix: Prefix,
    pub(crate) registration: Registration,
    /// Whether the registration of its xTR is removed in place of being made.
    pub(crate) is_withdrawal: bool,
    /// An empty list with room for the registrations of the site and one more.
    pub(crate) live: Vec<Registration>,
    /// An empty list with room for the last nonces of the site and one more.
    pub(crate) nonces: Vec<LastNonce>,
}
