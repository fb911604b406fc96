//! The items of a register while its rows are read.

ghost use Rattle.std.specs.Prelude.{◌≡◌, OnOk, true};
ghost use Rattle.ddt_register.specs.Rows.{are_rows};
ghost use Rattle.ddt_register.specs.Spelled.{Lists, no_items, items_of, joined, lists_of};

use crate::csv_row::Row;
use crate::group::Group;
use crate::register::Register;
use crate::site::Site;
use crate::zone::Zone;
use std::alloc::{AllocError, Global};
use std::marker::Model;

/// The zones, sites and groups of the rows so far. Contracts see the lists.
#[derive(Drop)]
pub(crate) struct Items {
    zones: Vec<Zone>,
    sites: Vec<Site>,
    groups: Vec<Group>,
}

impl Model for Items {
    ghost Value = { Lists };

    ghost view = { λ i. record { zones = i.zones.items; sites = i.sites.items; groups = i.groups.items } };
}

impl Items {
    /// No items.
    pub(crate) fn new(alloc: Global) -> Items
        ensures { result ≡ no_items }
    {
        Items {
            zones: Vec::new(alloc),
            sites: Vec::new(alloc),
            groups: Vec::new(alloc),
        }
    }

    /// Adds the item of one more row. Fails only if out of memory.
    pub(crate) fn push(&mut self, row: Row) -> Result<(), AllocError>
        ensures { OnOk result (self.new ≡ joined self.old (items_of row)) }
    {
        match row {
            Row::Zone(zone) => self.zones.push(zone)?,
            Row::Site(site) => self.sites.push(site)?,
            Row::Group(group) => self.groups.push(group)?,
        }
        Ok(())
    }

    /// The register of the items. It allocates nothing.
    pub(crate) fn into_register(self) -> Register
        requires { are_rows self.zones self.sites self.groups ≡ true }
        ensures { lists_of result ≡ self }
    {
        Register::of_rows(self.zones, self.sites, self.groups)
    }
}
