//! A pending lookup: its identifier, its servers, its last request, and what its replies have said so far.

use ddt_path::{Locator, LocatorSet, Prefix, ReferralRecord, Xeid};

/// A pending lookup: it waits for the reply to its last request.
#[derive(Clone, Copy, Debug)]
pub struct Pending {
    /// The identifier (XEID) of the lookup. It never changes.
    pub x: Xeid,
    /// The current set of servers, in the order in which they are asked. It is set at the start of the lookup, at each
    /// referral that it follows, and at a new start at the root.
    pub servers: LocatorSet,
    /// The index in the set of the server that was asked last.
    pub server_index: usize,
    /// Whether the last request was the retry: the second request to the same server.
    pub is_retry: bool,
    /// The nonce of the last request.
    pub nonce: u64,
    /// The moment, in milliseconds, from which a reply is late: 2,000 after the last request was sent.
    pub deadline: u64,
    /// The prefix of the last referral that was followed since the lookup started, or started again at the root.
    pub last_referral: Option<Prefix>,
    /// The last MS-NOT-REGISTERED record from a server of the current set.
    pub last_not_registered: Option<ReferralRecord>,
    /// Whether the lookup has started again at the root.
    pub restarted: bool,
    /// The prefix of the cache entry at which the lookup started; None for the root.
    pub start_entry: Option<Prefix>,
}

impl Pending {
    ghost use Rattle.std.specs.Prelude.{◌≡◌, ◌<◌, ◌+◌, ◌≤◌, get_or, length, true, false, None, Some};
    ghost use Rattle.ddt_path.specs.declared.locator.Locator.{Locator as ALocator};
    ghost use Rattle.ddt_path.specs.Locators.{most_locators};
    ghost use Rattle.ddt_resolver.specs.Within.{asked_within as asked_within_of};
    ghost use Rattle.ddt_resolver.specs.State.{opening as opening_of, referred as referred_of, passed_on as passed_on_of, tried_again as tried_again_of, at_next as at_next_of};

    /// A new lookup at the first server of a set. It starts at the cache entry of the prefix `start`; None for the
    /// root.
    pub(crate) fn opening(x: Xeid, servers: LocatorSet, start: Option<Prefix>) -> Pending
        ensures { result ≡ opening_of x servers start }
    {
        Pending {
            x,
            servers,
            server_index: 0,
            is_retry: false,
            nonce: 0,
            deadline: 0,
            last_referral: None,
            last_not_registered: None,
            restarted: false,
            start_entry: start,
        }
    }

    /// The server that the lookup asks.
    pub(crate) fn server(&self) -> Locator
        requires { self.now.server_index < length self.now.servers }
        ensures { (d : ALocator) → result ≡ get_or self.now.servers self.now.server_index d }
    {
        self.servers.as_slice()[self.server_index]
    }

    /// The prefix of the zone that the lookup's servers are asked for; None for the root.
    pub(crate) fn asked_within(&self) -> Option<Prefix>
        ensures { result ≡ asked_within_of self.now }
    {
        match self.last_referral {
            Some(prefix) => Some(prefix),
            None => self.start_entry,
        }
    }

    /// The lookup after following a referral.
    pub(crate) fn referred(&self, referral: &ReferralRecord) -> Pending
        ensures { result ≡ referred_of self.now referral.now }
    {
        Pending {
            servers: referral.servers,
            server_index: 0,
            is_retry: false,
            last_referral: Some(referral.prefix),
            last_not_registered: None,
            ..*self
        }
    }

    /// The lookup at the next server of its set, after an MS-NOT-REGISTERED.
    pub(crate) fn passed_on(&self, referral: &ReferralRecord) -> Pending
        requires place { self.now.server_index + 1 < length self.now.servers }
        requires few { length self.now.servers ≤ most_locators }
        ensures { result ≡ passed_on_of self.now referral.now }
    {
        Pending {
            server_index: self.server_index + 1,
            is_retry: false,
            last_not_registered: Some(*referral),
            ..*self
        }
    }

    /// The lookup after a new start at the root, whose servers are `roots`.
    pub(crate) fn started_over(&self, roots: LocatorSet) -> Pending
        ensures { result ≡ record self.now {
          servers = roots;
          server_index = 0;
          is_retry = false;
          last_referral = None;
          last_not_registered = None;
          start_entry = None;
          restarted = true;
        } }
    {
        Pending {
            servers: roots,
            server_index: 0,
            is_retry: false,
            last_referral: None,
            last_not_registered: None,
            start_entry: None,
            restarted: true,
            ..*self
        }
    }

    /// The lookup at its retry: the same server is asked again.
    pub(crate) fn tried_again(&self) -> Pending
        ensures { result ≡ tried_again_of self.now }
    {
        Pending {
            is_retry: true,
            ..*self
        }
    }

    /// The lookup at the next server of its set, after no reply in time.
    pub(crate) fn at_next(&self) -> Pending
        requires place { self.now.server_index + 1 < length self.now.servers }
        requires few { length self.now.servers ≤ most_locators }
        ensures { result ≡ at_next_of self.now }
    {
        Pending {
            server_index: self.server_index + 1,
            is_retry: false,
            ..*self
        }
    }

    /// The lookup after sending a request with this nonce and this deadline, in milliseconds.
    pub(crate) fn numbered(&self, nonce: u64, deadline: u64) -> Pending
        ensures { result ≡ record self.now { nonce = nonce; deadline = deadline } }
    {
        Pending {
            nonce,
            deadline,
            ..*self
        }
    }
}
