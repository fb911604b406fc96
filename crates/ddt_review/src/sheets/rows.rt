//! The rows of a file that are read.

use ddt_register::{Group, Register, Row, Site, Zone};
use std::alloc::{AllocError, Global};

/// The zones, sites and groups so far.
#[derive(Drop)]
pub(crate) struct Rows {
    zones: Vec<Zone>,
    sites: Vec<Site>,
    groups: Vec<Group>,
}

impl Rows {
    /// No rows.
    pub(crate) fn new(alloc: Global) -> Rows {
        Rows {
            zones: Vec::new(alloc),
            sites: Vec::new(alloc),
            groups: Vec::new(alloc),
        }
    }

    /// Adds one more row. Fails only if out of memory.
    pub(crate) fn push(&mut self, row: Row) -> Result<(), AllocError> {
        match row {
            Row::Zone(zone) => self.zones.push(zone)?,
            Row::Site(site) => self.sites.push(site)?,
            Row::Group(group) => self.groups.push(group)?,
        }
        Ok(())
    }

    /// The register of the rows; None if their numbers don't rise. It allocates nothing.
    pub(crate) fn into_register(self) -> Option<Register> {
        Register::of(self.zones, self.sites, self.groups)
    }
}
