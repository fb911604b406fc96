//! The result of a lookup: its outcome, and its requests with their replies; or its error.

use ddt_path::{Listed, Locator, Outcome};
use ddt_resolver::Why;
use thiserror::Error;

/// A request of a lookup and the reply to it.
#[derive(Debug, Drop)]
pub struct Hop {
    /// The server.
    pub to: Locator,
    /// The Encapsulated Map-Request, with the D bit set.
    pub request: Listed<u8>,
    /// The Map-Referral.
    pub reply: Listed<u8>,
}

/// A lookup that ended with an outcome.
#[derive(Debug, Drop)]
pub struct Lookup {
    /// The Map-Servers of the identifier, or its hole.
    pub outcome: Outcome,
    /// The requests in the order of sending; empty if the outcome was remembered.
    pub hops: Listed<Hop>,
}

/// Why a lookup has no outcome.
#[derive(Clone, Copy, Debug, PartialEq, Eq, Error)]
pub enum LookupError {
    /// It gave up.
    #[error("1 GaveUp {0}")]
    GaveUp(Why),
    /// 1,024 lookups were pending.
    #[error("2 TooMany")]
    TooMany,
    /// Memory ran out.
    #[error("3 Memory")]
    Memory,
}
