//! The events for the log: lookups that gave up, and messages that were dropped for their AFI.

use crate::itr_requests::WaitingRequest;
use ddt_path::{Locator, Outcome, Xeid};
use ddt_resolver::Why;

/// A lookup of an ITR that gave up.
#[derive(Clone, Copy, Debug, PartialEq, Eq)]
pub struct GivenUpLookup {
    /// The identifier that was looked up.
    pub xeid: Xeid,
    /// The reason.
    pub why: Why,
}

/// The lookup that a request has started, if the lookup gave up.
pub(crate) fn gave_up(
    request: &WaitingRequest,
    end: &Result<Outcome, Why>,
) -> Option<GivenUpLookup> {
    match end {
        Err(why) if request.begins.is_some() => Some(GivenUpLookup {
            xeid: request.request.xeid,
            why: *why,
        }),
        _ => None,
    }
}

/// A message that was dropped for an AFI that RFC 9301, section 5, calls unrecognized.
#[derive(Clone, Copy, Debug, PartialEq, Eq)]
pub enum UnrecognizedMessage {
    /// A Map-Request from this address.
    Request(Locator),
    /// A Map-Referral from this address.
    Referral(Locator),
}
