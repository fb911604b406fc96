//! The requests of ITRs that wait for pending lookups.

ghost use Rattle.std.specs.Prelude.{◌≡◌, ◌≤◌, ◌<◌, ◌++◌, [], ◌∷◌, ◌==◌, true, false, length, position, OnOk};
ghost use Rattle.std.specs.VecDeque.{deque_capacity};
ghost use Rattle.ddt_resolver.specs.State.{most_pending};
ghost use Rattle.ddt_daemon.specs.Admitted.{most_of_source, most_of_set};
ghost use Rattle.ddt_daemon.specs.WaitingRequest.{TakesKept, is_same_request as is_same_request_of, waits_for, of_source, of_set, begins_at as begins_at_of};

use crate::admission::{MOST_OF_SET, MOST_OF_SOURCE};
use ddt_path::{Listed, Locator, LocatorSet};
use ddt_resolver::{ItrRequest, MOST_PENDING};
use std::alloc::{AllocError, Global};
use std::collections::VecDeque;

/// A request of an ITR that waits for a lookup.
#[derive(Debug, Drop)]
pub struct WaitingRequest {
    /// The ticket of the lookup.
    pub ticket: u64,
    pub request: ItrRequest,
    /// The source address.
    pub from: Locator,
    /// The referral set at which its lookup began; None if it shares the lookup of another request.
    pub begins: Option<LocatorSet>,
    /// The request's bytes as received.
    pub bytes: Listed<u8>,
}

/// The waiting requests of ITRs, in the order of their arrival.
#[derive(Debug, Drop)]
pub struct WaitingRequests {
    kept: VecDeque<WaitingRequest>,
}

impl WaitingRequests {
    /// No waiting requests.
    pub fn new(alloc: Global) -> WaitingRequests
        ensures { result.kept.items ≡ [] }
    {
        WaitingRequests {
            kept: VecDeque::new(alloc),
        }
    }

    /// The number of waiting requests.
    pub fn len(&self) -> usize
        ensures { result ≡ length self.now.kept.items }
    {
        self.kept.len()
    }

    /// Whether as many requests wait as lookups can be pending.
    pub fn is_full(&self) -> bool
        ensures full { result ≡ true → most_pending ≤ length self.now.kept.items }
        ensures room { result ≡ false → length self.now.kept.items < most_pending }
    {
        self.kept.len() >= MOST_PENDING
    }

    /// Whether the same request waits: same nonce, identifier, RLOC and port.
    pub fn has(&self, request: &ItrRequest) -> bool
        ensures { result ≡ waits_for self.now.kept.items request.now }
    {
        self.kept
            .iter()
            .any(|kept| is_same_request(&kept.request, request))
    }

    /// Whether 128 requests from this address wait, the most that may.
    pub fn is_full_of_source(&self, from: Locator) -> bool
        ensures full { result ≡ true → most_of_source ≤ of_source self.now.kept.items from }
        ensures room { result ≡ false → of_source self.now.kept.items from < most_of_source }
    {
        if self.kept.len() < MOST_OF_SOURCE {
            return false;
        }
        self.of_source(from) >= MOST_OF_SOURCE
    }

    /// The number of waiting requests from this address.
    fn of_source(&self, from: Locator) -> usize
        ensures { result ≡ of_source self.now.kept.items from }
    {
        self.kept.iter().filter(|kept| kept.from == from).count()
    }

    /// Whether 256 requests wait whose lookup began at this referral set, the most that may.
    pub fn is_full_of_set(&self, servers: &LocatorSet) -> bool
        ensures full { result ≡ true → most_of_set ≤ of_set self.now.kept.items servers.now }
        ensures room { result ≡ false → of_set self.now.kept.items servers.now < most_of_set }
    {
        if self.kept.len() < MOST_OF_SET {
            return false;
        }
        self.of_set(servers) >= MOST_OF_SET
    }

    /// The number of waiting requests whose lookup began at this referral set.
    fn of_set(&self, servers: &LocatorSet) -> usize
        ensures { result ≡ of_set self.now.kept.items servers.now }
    {
        let kept = self.kept.iter();
        kept.filter(|kept| begins_at(&kept.begins, servers)).count()
    }

    /// Makes room for one more request.
    pub fn reserve(&mut self) -> Result<(), AllocError>
        ensures room { OnOk result (length self.new.kept.items < deque_capacity self.new.kept) }
        ensures same { self.new.kept.items ≡ self.old.kept.items }
    {
        self.kept.reserve(1)
    }

    /// Adds a request, for which there is room. Allocates nothing.
    pub fn add(&mut self, kept: WaitingRequest)
        requires { length self.old.kept.items < deque_capacity self.old.kept }
        ensures { self.new.kept.items ≡ self.old.kept.items ++ kept ∷ [] }
    {
        self.kept.push_back_reserved(kept);
    }

    /// Removes the first request that waits for the lookup of a ticket.
    pub fn take(&mut self, ticket: u64) -> Option<WaitingRequest>
        ensures { TakesKept ticket self.old.kept.items self.new.kept.items result }
    {
        let place = place_of(&self.kept, ticket)?;
        self.kept.remove(place)
    }
}

/// The place of the first request that waits for the lookup of a ticket.
fn place_of(kept: &VecDeque<WaitingRequest>, ticket: u64) -> Option<usize>
    ensures { result ≡ position (λ k. k.ticket == ticket) kept.now.items }
{
    kept.iter().position(|k| k.ticket == ticket)
}

/// Whether two requests have the same nonce, identifier, RLOC and port.
pub(crate) fn is_same_request(one: &ItrRequest, other: &ItrRequest) -> bool
    ensures { result ≡ is_same_request_of one.now other.now }
{
    one.nonce == other.nonce
        && one.xeid.iid == other.xeid.iid
        && one.xeid.address == other.xeid.address
        && one.to == other.to
        && one.port == other.port
}

/// Whether a lookup began at this referral set.
fn begins_at(begins: &Option<LocatorSet>, servers: &LocatorSet) -> bool
    ensures { result ≡ begins_at_of begins.now servers.now }
{
    match begins {
        Some(own) => *own == *servers,
        None => false,
    }
}
