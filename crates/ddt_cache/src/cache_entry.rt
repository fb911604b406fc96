//! A cache's entry, and the result of saving a record.

use ddt_path::{Action, LocatorSet};

/// What a cache remembers of a record. That of the root is made with the cache: its action is NODE-REFERRAL, and it
/// ends at 18446744073709551615, the last moment.
#[derive(Clone, Copy, Debug, PartialEq, Eq)]
pub struct Entry {
    /// The record's action.
    pub action: Action,
    /// The referral set.
    pub servers: LocatorSet,
    /// The first moment, in milliseconds, at which the entry isn't live.
    pub end: u64,
}

/// The result of saving a record.
#[derive(Clone, Copy, Debug, PartialEq, Eq)]
pub enum Saved {
    /// The record is saved, in place of the entry of its prefix if there was one.
    Saved,
    /// The record isn't one to save: its TTL is 0, its action is NOT-AUTHORITATIVE, or it is a NODE-REFERRAL,
    /// MS-REFERRAL or MS-ACK with no locator or with the prefix that is everything.
    NotSaved,
    /// 65,536 entries are live, and none has its prefix.
    Full,
}
