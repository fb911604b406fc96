//! The ETRs of the registrations of a site, in the order of their priorities.

ghost use Rattle.std.specs.Prelude.{◌≡◌, ◌≤◌, ◌<◌, ◌++◌, ◌∷◌, [], List, length, map, insert};
ghost use Rattle.std.specs.List.{list_any};
ghost use Rattle.ddt_path.specs.Locators.{is_same_locator};
ghost use Rattle.ddt_foreign.specs.declared.order.Ranked.{Ranked as ARanked};
ghost use Rattle.ddt_foreign.specs.Order.{place_of, placed};
ghost use Rattle.ddt_registrar.specs.Registration.{joined, all_joined, ranked_in, registered_etrs};

use crate::registration::Registration;
use ddt_foreign::Ranked;
use ddt_path::{Locator, LocatorSet, MOST_LOCATORS};
use std::marker::Model;

/// The content of an unused slot.
const UNUSED: Ranked = Ranked {
    priority: 255,
    address: Locator::V4(0),
};

/// ETRs by priority, each address once, eight at most. Contracts see the list.
#[derive(Drop)]
struct RankedEtrs {
    /// The list and unused slots after it. The last is never of the list: a new ETR is moved to its place from there.
    slots: [Ranked; 9],
    len: usize,
}

impl Model for RankedEtrs {
    ghost use Rattle.std.specs.Prelude.{List, ◌≤◌, take};
    ghost use Rattle.ddt_path.specs.Locators.{most_locators};
    ghost use Rattle.ddt_foreign.specs.declared.order.Ranked.{Ranked as ARanked};

    ghost Value = { List ARanked };

    ghost view = { λ r. take r.len r.slots };

    ghost invariant = { λ r. r.len ≤ most_locators };
}

/// Moves the last of these ETRs to an index, and the ETRs from there on up by one.
fn move_last_to(etrs: &mut [Ranked], at: usize)
    requires { at < length etrs.old }
    ensures { (front : List ARanked) (last : ARanked) → etrs.old ≡ front ++ last ∷ []
        → etrs.new ≡ insert front at last }
{
    etrs[at..].rotate_right(1);
}

/// The number of ETRs at the front that a new one of this priority comes after.
fn place(priority: u8, ranked: &[Ranked]) -> usize
    ensures is { result ≡ place_of priority ranked.now }
    ensures within { result ≤ length ranked.now }
{
    let mut at = 0;
    while at < ranked.len() && ranked[at].priority <= priority {
        at += 1;
    }
    at
}

impl RankedEtrs {
    /// No ETRs.
    fn none() -> RankedEtrs
        ensures { result ≡ [] }
    {
        RankedEtrs {
            slots: [UNUSED; 9],
            len: 0,
        }
    }

    /// The ETRs in order.
    fn as_slice(&self) -> &[Ranked]
        ensures { result.now ≡ self.now }
    {
        &self.slots[..self.len]
    }

    /// The number of ETRs that a new one of this priority comes after.
    fn place(&self, priority: u8) -> usize
        ensures is { result ≡ place_of priority self.now }
        ensures within { result ≤ length self.now }
    {
        place(priority, self.as_slice())
    }

    /// Inserts an ETR after those of its priority, and keeps the first eight.
    fn insert(&mut self, one: Ranked)
        ensures { self.new ≡ placed one self.old }
    {
        let at = self.place(one.priority);
        self.slots[MOST_LOCATORS] = one;
        move_last_to(&mut self.slots, at);
        self.len = (self.len + 1).min(MOST_LOCATORS);
    }

    /// Whether an address is in the list.
    fn lists(&self, address: Locator) -> bool
        ensures { result ≡ list_any (λ r. is_same_locator r.address address) self.now }
    {
        self.as_slice().iter().any(|one| one.address == address)
    }

    /// Inserts an ETR by its priority, unless its address is in the list.
    fn join(&mut self, one: Ranked)
        ensures { self.new ≡ joined one self.old }
    {
        if !self.lists(one.address) {
            self.insert(one);
        }
    }

    /// Inserts the ETRs of a registration.
    fn join_all(&mut self, etrs: &[Ranked])
        ensures { self.new ≡ all_joined etrs.now self.old }
    {
        for one in etrs {
            self.join(*one);
        }
    }

    /// Inserts the ETRs of all registrations.
    fn fill(&mut self, live: &[Registration])
        requires { self.old ≡ [] }
        ensures { self.new ≡ ranked_in live.now [] }
    {
        for registration in live {
            self.join_all(registration.etrs.as_slice());
        }
    }

    /// The addresses of the ETRs, in order.
    fn addresses(&self) -> LocatorSet
        ensures { result ≡ map (λ r. r.address) self.now }
    {
        let mut addresses = [Locator::V4(0); MOST_LOCATORS];
        for at in 0..self.len {
            addresses[at] = self.slots[at].address;
        }
        LocatorSet::of_few(&addresses[..self.len])
    }
}

/// The registered ETRs by priority; of one priority in the order of the registrations; each once, eight at most.
pub(crate) fn registered(live: &[Registration]) -> LocatorSet
    ensures { result ≡ registered_etrs live.now }
{
    let mut ranked = RankedEtrs::none();
    ranked.fill(live);
    ranked.addresses()
}
