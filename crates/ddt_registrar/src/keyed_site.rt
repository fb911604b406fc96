//! A site with keys, whose ETRs register: its registrations, and its ETRs in force.

ghost use Rattle.std.specs.Prelude.{◌≡◌, filter, not};
ghost use Rattle.std.specs.List.{list_any};
ghost use Rattle.ddt_registrar.specs.Carried.{carried, is_of_key as is_of_key_of, is_still_under as is_still_under_of};
ghost use Rattle.ddt_registrar.specs.Registration.{is_in_force};
ghost use Rattle.ddt_registrar.specs.Taking.{etrs_in_force as etrs_in_force_of, site_at};

use crate::key::{Key, is_of_key, is_still_under};
use crate::ranked_etrs::registered;
use crate::registration::{LastNonce, Registration};
use ddt_path::{LocatorSet, Prefix, Prefixed};
use std::marker::Model;

/// A site with its keys and its registrations.
#[derive(Debug, Drop)]
pub struct KeyedSite {
    pub prefix: Prefix,
    pub keys: Vec<Key>,
    /// The ETRs that the configuration names.
    pub configured: LocatorSet,
    /// Whether the configured ETRs are used again after the last registration is over.
    pub falls_back: bool,
    /// Whether an xTR has registered. A withdrawal doesn't count.
    pub has_registered: bool,
    /// The live registrations, one of each xTR, in the order in which the xTRs first registered.
    pub live: Vec<Registration>,
    /// The last nonce of each xTR under each key whose nonces have to increase.
    pub nonces: Vec<LastNonce>,
}

impl Model for KeyedSite {
    ghost use Rattle.ddt_registrar.specs.State.{Site};

    ghost Value = { Site };

    ghost view = { λ s. record {
      prefix = s.prefix;
      keys = s.keys.items;
      configured = s.configured;
      falls_back = s.falls_back;
      has_registered = s.has_registered;
      live = s.live.items;
      nonces = s.nonces.items;
    } };
}

impl Prefixed for KeyedSite {
    ghost path = { λ s. s.prefix };

    fn prefix(&self) -> Prefix {
        self.prefix
    }
}

/// Removes the registrations that are over.
fn end(live: &mut Vec<Registration>, now: u64)
    ensures { live.new.items ≡ filter (is_in_force now) live.old.items }
{
    live.retain(|registration| now < registration.deadline);
}

/// Removes the registrations under keys of `before` that aren't among `keys` or have changed.
fn revoke(live: &mut Vec<Registration>, before: &[Key], keys: &[Key])
    ensures { live.new.items ≡ filter (is_still_under_of before.now keys.now) live.old.items }
{
    live.retain(|registration| is_still_under(before, keys, registration));
}

/// Removes the nonces whose key isn't among `keys`.
fn forget(nonces: &mut Vec<LastNonce>, keys: &[Key])
    ensures { nonces.new.items ≡ filter (is_of_key_of keys.now) nonces.old.items }
{
    nonces.retain(|nonce| is_of_key(keys, nonce));
}

impl KeyedSite {
    /// The ETRs in force, eight at most. They are the registered ones, by priority. Without a registration they are the
    /// configured ones until an xTR has registered, and after that only if the site falls back.
    pub fn etrs_in_force(&self) -> LocatorSet
        ensures { result ≡ etrs_in_force_of self.now }
    {
        if !self.live.is_empty() {
            registered(self.live.as_slice())
        } else if self.has_registered && !self.falls_back {
            LocatorSet::none()
        } else {
            self.configured
        }
    }

    /// Whether a registration is over at this moment, in milliseconds.
    pub(crate) fn has_ended(&self, now: u64) -> bool
        ensures { result ≡ list_any (λ r. not (is_in_force now r)) self.now.live }
    {
        self.live
            .iter()
            .any(|registration| now >= registration.deadline)
    }

    /// Removes the registrations that are over at this moment, in milliseconds.
    pub(crate) fn end(&mut self, now: u64)
        ensures { self.new ≡ site_at now self.old }
    {
        end(&mut self.live, now);
    }

    /// Carries over the state of the site before: whether an xTR has registered, the registrations under keys that are
    /// unchanged, and the last nonces under keys that the site has. Allocates nothing.
    pub(crate) fn carry_over(&mut self, before: KeyedSite)
        ensures { self.new ≡ carried before self.old }
    {
        let KeyedSite {
            keys,
            has_registered,
            live,
            nonces,
            ..
        } = before;
        self.live = live;
        revoke(&mut self.live, keys.as_slice(), self.keys.as_slice());
        self.nonces = nonces;
        forget(&mut self.nonces, self.keys.as_slice());
        self.has_registered = has_registered;
    }
}
