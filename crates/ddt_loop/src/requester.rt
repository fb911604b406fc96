//! The requesters of lookups: a listed identifier, or an ITR.

use ddt_resolver::ItrRequest;

/// The requester of a lookup.
#[derive(Clone, Copy, Debug)]
pub enum Requester {
    /// The identifier at this index of the list.
    Identifier(usize),
    /// An ITR, by this request.
    Itr(ItrRequest),
}

/// A pending lookup, and the requester that waits for its end.
#[derive(Clone, Copy, Debug)]
pub struct WaitingRequester {
    /// The number of the lookup's ticket.
    pub ticket: u64,
    /// The requester.
    pub requester: Requester,
}
