//! The recent requests of ITRs, to detect forwarding loops. A request that comes back from another address was
//! forwarded there: a Map-Server has sent it back to the resolver, and would do so without end.

ghost use Rattle.std.specs.Prelude.{◌≡◌, ◌≤◌, ◌<◌, ℕ, [], true, false, length, OnOk, OnErr};
ghost use Rattle.ddt_daemon.specs.Recent.{comes_back, place_of as place_of_request, recent_in, most_recent, HasBefore, Remembers};

use crate::itr_requests::is_same_request;
use ddt_path::Locator;
use ddt_resolver::ItrRequest;
use std::alloc::{AllocError, Global};

/// The most requests remembered. One replaces another whose nonce has the same remainder.
const MOST_REQUESTS: usize = 4096;

/// The milliseconds for which a request is remembered.
const MEMORY: u64 = 4000;

/// A received request.
#[derive(Clone, Copy, Debug)]
pub struct Recent {
    pub request: ItrRequest,
    /// The source address.
    pub from: Locator,
    /// The moment of its arrival, in milliseconds.
    pub at: u64,
}

impl Recent {
    /// Its place: what is left of its nonce.
    fn place(&self) -> usize
        ensures { result ≡ place_of_request self.now }
    {
        (self.request.nonce % MOST_REQUESTS as u64) as usize
    }

    /// Whether it is the same request as one that came less than 4,000 milliseconds ago, from another address.
    fn comes_back(&self, before: &Recent) -> bool
        ensures { result ≡ comes_back before.now self.now }
    {
        is_same_request(&before.request, &self.request)
            && self.at.saturating_sub(before.at) < MEMORY
            && before.from != self.from
    }
}

/// The recent requests, each in the place of its nonce.
#[derive(Debug, Drop)]
pub struct RecentRequests {
    places: Vec<Option<Recent>>,
}

impl RecentRequests {
    /// No requests yet.
    pub fn new(alloc: Global) -> RecentRequests
        ensures { result.places.items ≡ [] }
    {
        RecentRequests {
            places: Vec::new(alloc),
        }
    }

    /// Whether a request comes back: the same is remembered in its place, and came from another address less than 4,000
    /// milliseconds ago.
    pub fn has_before(&self, came: &Recent) -> bool
        ensures before { result ≡ true → HasBefore self.now.places.items came.now }
        ensures never { result ≡ false → HasBefore self.now.places.items came.now → ⊥ }
    {
        match self.recent_in(came.place()) {
            Some(before) => came.comes_back(&before),
            None => false,
        }
    }

    /// The request in a place, if one is remembered there.
    fn recent_in(&self, place: usize) -> Option<Recent>
        ensures { result ≡ recent_in self.now.places.items place }
    {
        self.places.as_slice().get(place).copied().flatten()
    }

    /// Remembers a request in its place. If there is no memory for all 4,096 places, nothing changes.
    #[tactic(auto, using(crate::proofs::RecentLemmas::put_in))]
    pub fn remember(&mut self, came: Recent)
        ensures { Remembers self.old.places.items came self.new.places.items }
    {
        if self.make_places().is_err() {
            return;
        }
        let place = came.place();
        self.places[place] = Some(came);
    }

    /// Makes all places. If out of memory, nothing changes.
    fn make_places(&mut self) -> Result<(), AllocError>
        ensures places { OnOk result (most_recent ≤ length self.new.places.items) }
        ensures same { OnOk result ((place : ℕ)
            → recent_in self.new.places.items place ≡ recent_in self.old.places.items place) }
        ensures lacks { OnErr result (length self.old.places.items < most_recent) }
        ensures unchanged { OnErr result (self.new.places.items ≡ self.old.places.items) }
    {
        if self.places.len() >= MOST_REQUESTS {
            return Ok(());
        }
        self.places.resize(MOST_REQUESTS, None)
    }
}
