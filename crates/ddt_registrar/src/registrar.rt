//! The registrar: all sites with keys, and how Map-Registers and the clock change them.

ghost use Rattle.std.specs.Prelude.{◌≡◌, ◌↔◌, ◌<◌, ◌≤◌, ◌++◌, [], ◌∷◌, Some, Err, length, map, find, set, slice_get, IsSome, IsNone, IfOk, IfErr, OnOk, OnErr};
ghost use Rattle.std.specs.Option.{option_map};
ghost use Rattle.ddt_path.specs.Covers.{is_same_path};
ghost use Rattle.ddt_path.specs.Steps.{IsReadAs};
ghost use Rattle.ddt_trie.specs.PrefixMap.{most_entries};
ghost use Rattle.ddt_config.specs.Table.{Outline};
ghost use Rattle.ddt_node.specs.laws.Changed.{at_prefix};
ghost use Rattle.ddt_registrar.specs.Carried.{carried, carried_from};
ghost use Rattle.ddt_registrar.specs.Checks.{checked, checked_at, site_of};
ghost use Rattle.ddt_registrar.specs.Sender.{sender_of};
ghost use Rattle.ddt_registrar.specs.State.{Site};
ghost use Rattle.ddt_registrar.specs.declared.refusal.NotAdded.TheVariants.{Twice, Full};
ghost use Rattle.ddt_registrar.specs.Prepared.{HasRoom, ArePrepared, sites_changed};
ghost use Rattle.ddt_registrar.specs.Taking.{after_all, IsNotifyFor, IsTaken, IsRefused, site_at, in_force};

use crate::key::Key;
use crate::keyed_site::KeyedSite;
use crate::received_register::ReceivedRegister;
use crate::refusal::{NotAdded, Refusal};
use crate::register_checks::check;
use crate::site_change::SiteChange;
use ddt_map_register::RegisterRecord;
use ddt_node::Server;
use ddt_path::Prefix;
use ddt_trie::{MOST_ENTRIES, PrefixMap};
use std::alloc::{AllocError, Global};
use std::marker::Model;

/// The sites of a Map-Server whose ETRs register, no two of one prefix. Contracts see the list of the sites.
#[derive(Drop)]
pub struct Registrar<M: PrefixMap<u32>> {
    sites: Vec<KeyedSite>,
    places: M,
}

impl<M: PrefixMap<u32>> Model for Registrar<M> {
    ghost use Rattle.std.specs.Prelude.{List};
    ghost use Rattle.ddt_registrar.specs.State.{Site};
    ghost use Rattle.ddt_registrar.specs.Taking.{AreFound};

    ghost Value = { List Site };

    ghost view = { λ r. r.sites.items };

    ghost invariant = { λ r. AreFound (M.content r.places) r.sites.items };
}

impl<M: PrefixMap<u32>> Registrar<M> {
    /// A registrar without sites.
    pub fn new(alloc: Global) -> Registrar<M>
        ensures { result ≡ [] }
    {
        Registrar {
            sites: Vec::new(alloc),
            places: M::empty(alloc),
        }
    }

    /// Appends a site. Refused, and then nothing changes: if there is a site of that prefix (1), if there are 1,048,576
    /// sites (2), or if memory runs out (3).
    pub fn add(&mut self, site: KeyedSite) -> Result<(), NotAdded>
        ensures added { OnOk result (self.new ≡ self.old ++ site ∷ []) }
        ensures refused { OnErr result (self.new ≡ self.old) }
        ensures twice { result ≡ Err Twice ↔ IsSome (find (λ s. is_same_path s.prefix site.prefix) self.old) }
        ensures full { result ≡ Err Full ↔ IsNone (find (λ s. is_same_path s.prefix site.prefix) self.old)
            × (most_entries ≤ length self.old) }
    {
        match self.site(site.prefix) {
            Some(_same) => return Err(NotAdded::Twice),
            None => {}
        }
        if self.sites.len() >= MOST_ENTRIES {
            return Err(NotAdded::Full);
        }
        if self.sites.reserve(1).is_err() {
            return Err(NotAdded::Memory);
        }
        match self.places.insert(site.prefix, self.sites.len() as u32) {
            Ok(_none) => {}
            Err(_back) => return Err(NotAdded::Memory),
        }
        match self.sites.push(site) {
            Ok(()) => Ok(()),
            Err(_full) => unreachable!(),
        }
    }

    /// The sites, in the order in which they were added.
    pub fn sites(&self) -> &[KeyedSite]
        ensures { result.now ≡ self.now }
    {
        self.sites.as_slice()
    }

    /// The site of exactly this prefix.
    pub fn site(&self, prefix: Prefix) -> Option<&KeyedSite>
        ensures { option_map (λ s. s.now) result ≡ find (λ s. is_same_path s.prefix prefix) self.now }
    {
        match self.places.get(prefix) {
            Some(place) => Some(&self.sites[*place as usize]),
            None => None,
        }
    }

    /// Carries over the state of a site before to the site of its prefix, if there is one. Allocates nothing.
    fn carry_one(&mut self, before: KeyedSite)
        ensures { self.new ≡ map (at_prefix (λ s. s.prefix) before.prefix (carried before)) self.old }
    {
        match self.places.get(before.prefix) {
            Some(place) => self.sites[*place as usize].carry_over(before),
            None => {}
        }
    }

    /// Carries over the registrations of the registrar before a reload. A site that was there before has again: whether
    /// an xTR has registered; the last nonces under the keys that it has; and the registrations under keys that are
    /// unchanged. Any other site is unchanged. Allocates nothing. No server is changed: call `put_in_force` afterwards.
    pub fn carry_over(&mut self, before: Registrar<M>)
        ensures { self.new ≡ map (carried_from before) self.old }
    {
        for site in before.sites {
            self.carry_one(site);
        }
    }

    /// Sets the ETRs of each site in a server to those in force, so that the server follows the registrar. Allocates
    /// nothing.
    pub fn put_in_force(&self, alloc: Global, server: &mut Server<M>)
        ensures { server.new ≡ in_force self.now server.old }
    {
        for site in self.sites.as_slice() {
            server.set_etrs(alloc, site.prefix, site.etrs_in_force());
        }
    }

    /// Checks a record of a Map-Register. Returns the key under which it may be registered, or why it may not.
    fn check_record(
        &self,
        arrival: &ReceivedRegister<'_, '_>,
        record: &RegisterRecord<'_>,
    ) -> Result<&Key, Refusal>
        ensures { IsReadAs (λ k. k.now) result
            (checked_at arrival.now.message.now record.now (sender_of arrival.now.message.now.id arrival.now.from)
            (site_of record.now self.now)) }
    {
        match self.site(record.prefix()) {
            Some(site) => check(arrival.message, record, arrival.sender(), site),
            None => Err(Refusal::NoSite),
        }
    }

    /// Checks all records of a Map-Register. Returns the key of the first record, or the first refusal.
    fn check(&self, arrival: &ReceivedRegister<'_, '_>) -> Result<&Key, Refusal>
        ensures { IsReadAs (λ k. k.now) result
            (checked arrival.now.message.now (sender_of arrival.now.message.now.id arrival.now.from) self.now) }
    {
        let mut first = None;
        let mut rest = arrival.message.records();
        while let Some(record) = rest.next() {
            let key = self.check_record(arrival, &record)?;
            first = Some(first.unwrap_or(key));
        }
        first.ok_or(Refusal::NoRecord)
    }

    /// The Map-Notify for a Map-Register that is accepted, None if the bit M is clear; or why it is refused.
    fn notify(
        &self,
        alloc: Global,
        arrival: &ReceivedRegister<'_, '_>,
    ) -> Result<Option<Vec<u8>>, Refusal>
        ensures told { IfOk result (λ notify. IsNotifyFor arrival.now.message.now
            (sender_of arrival.now.message.now.id arrival.now.from) self.now (option_map (λ v. v.items) notify)) }
        ensures refused { IfErr result (λ e. IsRefused arrival.now.message.now
            (sender_of arrival.now.message.now.id arrival.now.from) self.now e) }
    {
        let key = self.check(arrival)?;
        if arrival.message.head().want_notify {
            match arrival.message.notify(alloc, key.secret.as_slice()) {
                Ok(notify) => Ok(Some(notify)),
                Err(_refused) => Err(Refusal::Memory),
            }
        } else {
            Ok(None)
        }
    }

    /// Prepares the changes of the sites by all records, in their order. Fails only if out of memory.
    fn prepare(
        &self,
        alloc: Global,
        arrival: &ReceivedRegister<'_, '_>,
    ) -> Result<Vec<SiteChange>, AllocError>
        ensures { IfOk result (λ changes. ArePrepared arrival.now.moment arrival.now.message.now
            (sender_of arrival.now.message.now.id arrival.now.from) self.now 0 arrival.now.message.now.records
            changes.items) }
    {
        let mut changes = Vec::new(alloc);
        let mut rest = arrival.message.records();
        while let Some(record) = rest.next() {
            let site = self.site(record.prefix());
            let change = arrival.prepare(alloc, site, &record, changes.len())?;
            changes.push(change)?;
        }
        Ok(changes)
    }

    /// Changes the site of a record as prepared, and the ETRs of that site in the server. Allocates nothing.
    fn change_one(
        &mut self,
        alloc: Global,
        server: &mut Server<M>,
        arrival: &ReceivedRegister<'_, '_>,
        change: SiteChange,
    )
        requires { HasRoom (find (λ s. is_same_path s.prefix change.prefix) self.old) 0 change }
        ensures changed { self.new ≡ sites_changed arrival.now.message.now
            (sender_of arrival.now.message.now.id arrival.now.from) change self.old }
        ensures follows { (c : Outline) → server.old ≡ in_force self.old c → server.new ≡ in_force self.new c }
    {
        match self.places.get(change.prefix) {
            Some(place) => {
                let site = &mut self.sites[*place as usize];
                arrival.change(site, change);
                server.set_etrs(alloc, site.prefix, site.etrs_in_force());
            }
            None => {}
        }
    }

    /// Changes the sites of all records as prepared, in their order, and their ETRs in the server. Allocates nothing.
    fn change_all(
        &mut self,
        alloc: Global,
        server: &mut Server<M>,
        arrival: &ReceivedRegister<'_, '_>,
        changes: Vec<SiteChange>,
    )
        requires { ArePrepared arrival.now.moment arrival.now.message.now
            (sender_of arrival.now.message.now.id arrival.now.from) self.old 0 arrival.now.message.now.records
            changes.items }
        ensures changed { self.new ≡ after_all arrival.now.moment arrival.now.message.now
            (sender_of arrival.now.message.now.id arrival.now.from) arrival.now.message.now.records self.old }
        ensures follows { (c : Outline) → server.old ≡ in_force self.old c → server.new ≡ in_force self.new c }
    {
        for change in changes {
            self.change_one(alloc, server, arrival, change);
        }
    }

    /// Accepts a Map-Register: registers each of its records for its xTR, or withdraws it if its TTL is 0. Returns the
    /// Map-Notify for it, None if the bit M is clear. A server that answered by the configuration in force still does.
    ///
    /// Refused with the first refusal of its records in their order, or if it may be registered and memory runs out
    /// (7). Then nothing changes.
    pub fn take(
        &mut self,
        alloc: Global,
        server: &mut Server<M>,
        arrival: &ReceivedRegister<'_, '_>,
    ) -> Result<Option<Vec<u8>>, Refusal>
        ensures taken { IfOk result (λ notify. IsTaken arrival.now.moment arrival.now.message.now
            (sender_of arrival.now.message.now.id arrival.now.from) self.old self.new
            (option_map (λ v. v.items) notify)) }
        ensures refused { IfErr result (λ e. IsRefused arrival.now.message.now
            (sender_of arrival.now.message.now.id arrival.now.from) self.old e) }
        ensures unchanged { OnErr result ((self.new ≡ self.old) × (server.new ≡ server.old)) }
        ensures follows { (c : Outline) → server.old ≡ in_force self.old c → server.new ≡ in_force self.new c }
    {
        let notify = self.notify(alloc, arrival)?;
        match self.prepare(alloc, arrival) {
            Ok(changes) => {
                self.change_all(alloc, server, arrival, changes);
                Ok(notify)
            }
            Err(_refused) => Err(Refusal::Memory),
        }
    }

    /// Removes the registrations that are over at a moment, in milliseconds, from the site at an index, and sets its
    /// ETRs in the server. Allocates nothing.
    fn end_at(&mut self, alloc: Global, server: &mut Server<M>, at: usize, now: u64)
        requires { at < length self.old }
        ensures ended { (x : Site) → slice_get self.old at ≡ Some x → self.new ≡ set self.old at (site_at now x) }
        ensures follows { (c : Outline) → server.old ≡ in_force self.old c → server.new ≡ in_force self.new c }
    {
        if self.sites[at].has_ended(now) {
            let site = &mut self.sites[at];
            site.end(now);
            server.set_etrs(alloc, site.prefix, site.etrs_in_force());
        }
    }

    /// Removes the registrations that are over at a moment, in milliseconds, and sets the ETRs of their sites in the
    /// server. Allocates nothing.
    pub fn end(&mut self, alloc: Global, server: &mut Server<M>, now: u64)
        ensures ended { self.new ≡ map (site_at now) self.old }
        ensures follows { (c : Outline) → server.old ≡ in_force self.old c → server.new ≡ in_force self.new c }
    {
        for at in 0..self.sites.len() {
            self.end_at(alloc, server, at, now);
        }
    }
}
