//! The limits of a resolver: pending lookups, the time for a reply, requests to a server, and nonces.
//!
//! A server gets at most two requests of a lookup each time the lookup comes to it: the first, and one retry after
//! `REPLY_TIMEOUT_MS` without a usable reply. `Pending::is_retry` is whether the last request was the retry.

/// The most lookups that are pending at once.
pub const MOST_PENDING: usize = 1024;

/// The number of milliseconds for which a lookup waits for the reply to a request.
pub(crate) const REPLY_TIMEOUT_MS: u64 = 2000;

/// The nonce that is never sent: where it is next, no nonce is left.
pub(crate) const LAST_NONCE: u64 = u64::MAX;
