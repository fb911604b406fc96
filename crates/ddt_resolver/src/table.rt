//! The table of pending lookups and the nonces of their requests. A lookup is found by its nonce, and the first that is
//! due is the first of the table, with no walk.

ghost use Rattle.std.specs.Prelude.{◌≡◌, ◌≢◌, ◌<◌, ◌≤◌, ◌+◌, ℕ, None, Some, IsTrue, IfSome, IfNone, OnOk, OnSome};
ghost use Rattle.std.specs.FinMap as map;
ghost use Rattle.std.specs.BTreeMap as btree;
ghost use Rattle.std.specs.Ordering.{nat_cmp};
ghost use Rattle.slab.specs.Slab.{get as in_slot};
ghost use Rattle.ddt_resolver.specs.declared.pending.Pending.{Pending as APending};
ghost use Rattle.ddt_resolver.specs.TicketedLookup.{TicketedLookup as ATicketedLookup};
ghost use Rattle.ddt_resolver.specs.Table.{IsUnknown, HasNonce, IsNext, IsLeastDue, IsLeastDeadline, IsNoneDue};

use crate::pending::Pending;
use crate::ticketed_lookup::TicketedLookup;
use slab::Slab;
use std::alloc::{AllocError, Global};
use std::collections::BTreeMap;
use std::marker::Model;

/// The pending lookups. Contracts see them as a finite map by ticket, with the nonce of the next request.
#[derive(Drop)]
pub(crate) struct Table {
    /// The lookups with their tickets, each in a slot.
    lookups: Slab<TicketedLookup>,
    /// The slot of each lookup, by the nonce of its last request. The next nonce may have an entry too, with any slot,
    /// so that nothing is allocated after its request is sent.
    slots: BTreeMap<u64, usize>,
    /// The nonce of the next request. Deadlines rise with nonces, so the lookup with the least nonce is due first.
    next: u64,
}

impl Model for Table {
    ghost use Rattle.std.specs.Prelude.{◌≡◌, ◌-◌, is_some};
    ghost use Rattle.std.specs.Ordering.{nat_cmp};
    ghost use Rattle.std.specs.FinMap as map;
    ghost use Rattle.std.specs.BTreeMap as btree;
    ghost use Rattle.slab.specs.Slab.{get as in_slot, slab_len};
    ghost use Rattle.ddt_resolver.specs.contracts.pending.Pending as pending;
    ghost use Rattle.ddt_resolver.specs.Table.{Held, held_code, by_ticket, IsTable};

    ghost Value = { Held };

    ghost coded = { held_code pending.the_row.coded };

    ghost view = { λ a. record {
      lookups = by_ticket a.lookups;
      next = a.next;
      spare = a.lookups.capacity - slab_len a.lookups;
      is_ready = is_some (btree.get nat_cmp a.slots a.next);
    } };

    ghost invariant = { λ a. IsTable (btree.get nat_cmp a.slots) (in_slot a.lookups) a.next
        × (map.len (by_ticket a.lookups) ≡ slab_len a.lookups) };
}

impl Table {
    /// Creates a table with no lookup; the first request gets the nonce `seed`.
    pub(crate) fn new(alloc: Global, seed: u64) -> Table
        ensures lookups { result.lookups ≡ map.empty }
        ensures next { result.next ≡ seed }
    {
        Table {
            lookups: Slab::new(alloc),
            slots: BTreeMap::new(alloc),
            next: seed,
        }
    }

    /// The number of pending lookups.
    pub(crate) fn len(&self) -> usize
        ensures { result ≡ map.len self.now.lookups }
    {
        self.lookups.len()
    }

    /// The nonce of the next request; `u64::MAX` is never sent.
    pub(crate) fn next_nonce(&self) -> u64
        ensures { result ≡ self.now.next }
    {
        self.next
    }

    /// The lookup whose last request has this nonce, with its ticket.
    pub(crate) fn with_nonce(&self, nonce: u64) -> Option<(u64, Pending)>
        ensures found { IfSome result (λ found. map.get self.now.lookups found.0 ≡ Some found.1) }
        ensures nonce { IfSome result (λ found. found.1.nonce ≡ nonce) }
        ensures none { IfNone result (IsUnknown self.now.lookups nonce) }
    {
        if nonce >= self.next {
            return None;
        }
        match self.slots.get(&nonce) {
            Some(slot) => ticket_and_lookup(&self.lookups, *slot),
            None => None,
        }
    }

    /// The lookup with the least nonce of those whose deadline is at or before `time`, in milliseconds, with its
    /// ticket.
    pub(crate) fn due(&self, time: u64) -> Option<(u64, Pending)>
        ensures found { IfSome result (λ d. map.get self.now.lookups d.0 ≡ Some d.1) }
        ensures over { IfSome result (λ d. d.1.deadline ≤ time) }
        ensures least { IfSome result (λ d. IsLeastDue self.now.lookups time d.1.nonce) }
        ensures none { IfNone result (IsNoneDue self.now.lookups time) }
    {
        match self.first() {
            Some((ticket, lookup)) => {
                if lookup.deadline <= time {
                    Some((ticket, lookup))
                } else {
                    None
                }
            }
            None => None,
        }
    }

    /// The least deadline of the lookups, in milliseconds; None if there is no lookup.
    pub(crate) fn next_deadline(&self) -> Option<u64>
        ensures least { IfSome result (IsLeastDeadline self.now.lookups) }
        ensures none { IfNone result ((u : ℕ) → map.get self.now.lookups u ≡ None) }
    {
        match self.first() {
            Some((_ticket, lookup)) => Some(lookup.deadline),
            None => None,
        }
    }

    /// The lookup whose last request has the least nonce, with its ticket.
    fn first(&self) -> Option<(u64, Pending)>
        ensures found { IfSome result (λ f. map.get self.now.lookups f.0 ≡ Some f.1) }
        ensures least { IfSome result (λ f. (u : ℕ) (m : APending) → map.get self.now.lookups u ≡ Some m
            → f.1.nonce ≤ m.nonce) }
        ensures soonest { IfSome result (λ f. (u : ℕ) (m : APending) → map.get self.now.lookups u ≡ Some m
            → f.1.deadline ≤ m.deadline) }
        ensures none { IfNone result ((u : ℕ) → map.get self.now.lookups u ≡ None) }
    {
        match self.slots.first_key_value() {
            Some((nonce, slot)) => {
                if *nonce < self.next {
                    ticket_and_lookup(&self.lookups, *slot)
                } else {
                    None
                }
            }
            None => None,
        }
    }

    /// Makes room for the next nonce. Fails only if out of memory.
    pub(crate) fn prepare(&mut self) -> Result<(), AllocError>
        ensures lookups { self.new.lookups ≡ self.old.lookups }
        ensures next { self.new.next ≡ self.old.next }
        ensures spare { self.new.spare ≡ self.old.spare }
        ensures ready { OnOk result (IsTrue self.new.is_ready) }
    {
        match self.slots.insert(self.next, 0) {
            Ok(_slot) => Ok(()),
            Err(_refused) => Err(AllocError),
        }
    }

    /// Makes room for one more lookup and for the next nonce. Fails only if out of memory.
    pub(crate) fn reserve(&mut self) -> Result<(), AllocError>
        ensures lookups { self.new.lookups ≡ self.old.lookups }
        ensures next { self.new.next ≡ self.old.next }
        ensures room { OnOk result (0 < self.new.spare) }
        ensures ready { OnOk result (IsTrue self.new.is_ready) }
    {
        self.lookups.reserve(1)?;
        self.prepare()
    }

    /// Adds a lookup, whose request is sent, under a ticket that isn't in use. There is room, so it allocates nothing.
    pub(crate) fn add(&mut self, ticket: u64, lookup: Pending)
        requires ticket { map.get self.old.lookups ticket ≡ None }
        requires next { IsNext self.old lookup }
        requires room { 0 < self.old.spare }
        requires ready { IsTrue self.old.is_ready }
        ensures lookups { self.new.lookups ≡ map.insert self.old.lookups ticket lookup }
        ensures next { self.new.next ≡ self.old.next + 1 }
    {
        let slot = self
            .lookups
            .insert_reserved(TicketedLookup { ticket, lookup });
        note(&mut self.slots, self.next, slot);
        self.next += 1;
    }

    /// Replaces the lookup whose last request has this nonce by a lookup whose request is sent. There is room for the
    /// new nonce, so it allocates nothing.
    pub(crate) fn replace(&mut self, nonce: u64, lookup: Pending)
        requires there { (t : ℕ) × HasNonce self.old.lookups t nonce }
        requires next { IsNext self.old lookup }
        requires ready { IsTrue self.old.is_ready }
        ensures lookups { (t : ℕ) → HasNonce self.old.lookups t nonce
            → self.new.lookups ≡ map.insert self.old.lookups t lookup }
        ensures next { self.new.next ≡ self.old.next + 1 }
    {
        if let Some(before) = self.take(nonce) {
            self.add(before.ticket, lookup);
        }
    }

    /// Removes the lookup whose last request has this nonce, and returns it with its ticket.
    pub(crate) fn take(&mut self, nonce: u64) -> Option<TicketedLookup>
        ensures found { IfSome result (λ w. map.get self.old.lookups w.ticket ≡ Some w.lookup) }
        ensures nonce { IfSome result (λ w. w.lookup.nonce ≡ nonce) }
        ensures only { IfSome result (λ w. (t : ℕ) → HasNonce self.old.lookups t nonce → w.ticket ≡ t) }
        ensures taken { IfSome result (λ w. self.new.lookups ≡ map.remove self.old.lookups w.ticket) }
        ensures room { OnSome result (0 < self.new.spare) }
        ensures ready { self.new.is_ready ≡ self.old.is_ready }
        ensures next { self.new.next ≡ self.old.next }
        ensures none { IfNone result (IsUnknown self.old.lookups nonce) }
        ensures unchanged { IfNone result (self.new.lookups ≡ self.old.lookups) }
    {
        if nonce >= self.next {
            return None;
        }
        match self.slots.remove(&nonce) {
            Some(slot) => self.lookups.try_remove(slot),
            None => None,
        }
    }

    /// Removes the lookup of a ticket, and returns whether there was one. It walks over the lookups.
    pub(crate) fn cancel(&mut self, ticket: u64) -> bool
        ensures removed { self.new.lookups ≡ map.remove self.old.lookups ticket }
        ensures next { self.new.next ≡ self.old.next }
        ensures there { result ≡ map.contains_key self.old.lookups ticket }
    {
        match nonce_of(&self.lookups, ticket) {
            Some(nonce) => self.take(nonce).is_some(),
            None => false,
        }
    }
}

/// The lookup in a slot, with its ticket.
fn ticket_and_lookup(lookups: &Slab<TicketedLookup>, slot: usize) -> Option<(u64, Pending)>
    ensures found { IfSome result (λ f. in_slot lookups.now slot ≡ Some (record { ticket = f.0; lookup = f.1 })) }
    ensures none { IfNone result (in_slot lookups.now slot ≡ None) }
{
    match lookups.get(slot) {
        Some(waiting) => Some((waiting.ticket, waiting.lookup)),
        None => None,
    }
}

/// Sets the slot of a nonce. The nonce has an entry, so it allocates nothing.
fn note(slots: &mut BTreeMap<u64, usize>, nonce: u64, slot: usize)
    requires { btree.get nat_cmp slots.old nonce ≢ None }
    ensures here { btree.get nat_cmp slots.new nonce ≡ Some slot }
    ensures others { (q : ℕ) → q ≢ nonce → btree.get nat_cmp slots.new q ≡ btree.get nat_cmp slots.old q }
{
    let noted: Result<_, _> = slots.insert(nonce, slot);
    noted.unwrap();
}

/// The nonce of the last request of the lookup of a ticket.
fn nonce_of(lookups: &Slab<TicketedLookup>, ticket: u64) -> Option<u64>
    ensures found { IfSome result (λ nonce. (slot : ℕ) × (w : ATicketedLookup) × (in_slot lookups.now slot ≡ Some w)
        × (w.ticket ≡ ticket) × (w.lookup.nonce ≡ nonce)) }
    ensures none { IfNone result ((slot : ℕ) (w : ATicketedLookup) → in_slot lookups.now slot ≡ Some w
        → w.ticket ≢ ticket) }
{
    for (_slot, waiting) in lookups.iter() {
        if waiting.ticket == ticket {
            return Some(waiting.lookup.nonce);
        }
    }
    None
}
