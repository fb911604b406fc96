//! A pending lookup with its ticket: an element of the table of pending lookups.

use crate::pending::Pending;
use std::marker::Model;

/// A pending lookup with its ticket. Contracts see its fields. Its model lets it be moved into a slab.
#[derive(Drop)]
pub struct TicketedLookup {
    /// The ticket: the nonce of the lookup's first request.
    pub ticket: u64,
    /// The lookup.
    pub lookup: Pending,
}

impl Model for TicketedLookup {
    ghost use Rattle.ddt_resolver.specs.contracts.pending.Pending as pending;
    ghost use Rattle.ddt_resolver.specs.TicketedLookup.{TicketedLookup as ATicketedLookup, ticketed_lookup_code};

    ghost Value = { ATicketedLookup };

    ghost coded = { ticketed_lookup_code pending.the_row.coded };

    ghost view = { λ w. record { ticket = w.ticket; lookup = w.lookup } };
}
