//! The maps by which the items of a register are looked up.

ghost use Rattle.std.specs.Prelude.{◌≡◌, IfOk};
ghost use Rattle.std.specs.List.{filter};
ghost use Rattle.ddt_check.specs.Rules.{is_root as is_root_zone};
ghost use Rattle.ddt_check.specs.Zones.{is_ms};
ghost use Rattle.ddt_review.specs.Faults.Told.{IsIndexOf};

use crate::faults::first_items::{
    RowAndKind, first_groups, first_of_locators, first_sites, first_zones,
};
use ddt_path::{Locator, Name, Prefix, Role};
use ddt_register::{Register, Zone, first_row};
use ddt_trie::TrieMap;
use std::alloc::{AllocError, Global};
use std::collections::BTreeMap;

/// The first items of a register by their keys.
#[derive(Drop)]
pub struct Index {
    /// The row of the first root.
    pub root: Option<u32>,
    /// The first zone of each prefix.
    pub zones: TrieMap<RowAndKind>,
    /// The first zone of Map-Servers of each prefix.
    pub map_servers: TrieMap<RowAndKind>,
    /// The row of the first site of each prefix.
    pub sites: BTreeMap<Prefix, u32>,
    /// The first group of each name.
    pub groups: BTreeMap<Name, RowAndKind>,
    /// The row of the first group that lists each locator.
    pub locators: BTreeMap<Locator, u32>,
}

impl Index {
    /// The index of a register. Fails only if out of memory.
    pub fn of(alloc: Global, register: &Register) -> Result<Index, AllocError>
        ensures { IfOk result (λ index. IsIndexOf register.now index) }
    {
        let zones = register.zones.as_slice();
        let groups = register.groups.as_slice();
        let map_servers = map_server_zones(alloc, zones)?;
        Ok(Index {
            root: first_row(zones, |z| is_root(z)),
            zones: first_zones(alloc, zones)?,
            map_servers: first_zones(alloc, &map_servers)?,
            sites: first_sites(alloc, register.sites.as_slice())?,
            groups: first_groups(alloc, groups)?,
            locators: first_of_locators(alloc, groups)?,
        })
    }
}

/// Whether a zone covers everything.
pub fn is_root(zone: &Zone) -> bool
    ensures { result ≡ is_root_zone zone.now }
{
    zone.prefix.len() == 0
}

/// The zones of Map-Servers. Fails only if out of memory.
fn map_server_zones(alloc: Global, zones: &[Zone]) -> Result<Vec<Zone>, AllocError>
    ensures { IfOk result (λ found. found.items ≡ filter (λ z. is_ms z.kind) zones.now) }
{
    zones
        .iter()
        .filter(|zone| zone.kind == Role::Ms)
        .copied()
        .collect(alloc)
}
