//! The zones that an organisation delegates, and a map of their prefixes.

ghost use Rattle.std.specs.Prelude.{◌≡◌, ◌<◌, List, length, IfOk};
ghost use Rattle.std.specs.List.{filter, list_any};
ghost use Rattle.ddt_path.specs.Covers.{is_strictly_below};
ghost use Rattle.ddt_register.specs.declared.zone.Zone.{Zone as AZone};
ghost use Rattle.ddt_trie.specs.PrefixMap.{most_entries};
ghost use Rattle.ddt_trie.specs.Trie.{trie_content};
ghost use Rattle.ddt_organisations.specs.Meets.{seen, is_delegated, own_zones as own_zones_of, delegated_zones as delegated_zones_of};
ghost use Rattle.ddt_organisations.specs.Found.{HasPrefixes, AreDelegations};

use crate::organisation::Organisation;
use ddt_path::Prefix;
use ddt_register::Zone;
use ddt_trie::{PrefixMap, TrieMap};
use std::alloc::{AllocError, Global};

/// The zones that an organisation delegates.
#[derive(Drop)]
pub struct Delegations {
    /// The zones that it delegates, in the order of its rows.
    pub zones: Vec<Zone>,
    /// Their rows by their prefixes.
    rows: TrieMap<u32>,
}

impl Delegations {
    /// The zones that an organisation delegates. Fails only if out of memory.
    pub fn of(alloc: Global, organisation: &Organisation) -> Result<Delegations, AllocError>
        ensures { IfOk result (λ found. AreDelegations (seen organisation.now) found) }
    {
        let own = own_zones(alloc, organisation)?;
        let above = rows_by_prefix(alloc, &own)?;
        let zones = delegated_zones(alloc, organisation, &above)?;
        let rows = rows_by_prefix(alloc, &zones)?;
        Ok(Delegations { zones, rows })
    }

    /// Whether a zone is strictly inside one of the zones that it delegates.
    pub fn have_inside(&self, zone: &Zone) -> bool
        requires { HasPrefixes self.now.zones.items (trie_content self.now.rows) }
        ensures { result ≡ list_any (λ z. is_strictly_below zone.now.prefix z.prefix) self.now.zones.items }
    {
        has_above(&self.rows, zone.prefix)
    }
}

/// The zones that an organisation runs. Fails only if out of memory.
fn own_zones(alloc: Global, organisation: &Organisation) -> Result<Vec<Zone>, AllocError>
    ensures { IfOk result (λ found. found.items ≡ own_zones_of (seen organisation.now)) }
{
    organisation
        .zones()
        .iter()
        .filter(|zone| organisation.runs(zone.group))
        .copied()
        .collect(alloc)
}

/// The zones that an organisation doesn't run, strictly below one that it runs. Fails only if out of memory.
fn delegated_zones(
    alloc: Global,
    organisation: &Organisation,
    above: &TrieMap<u32>,
) -> Result<Vec<Zone>, AllocError>
    requires { HasPrefixes (own_zones_of (seen organisation.now)) (trie_content above.now) }
    ensures { IfOk result (λ found. found.items ≡ delegated_zones_of (seen organisation.now)) }
{
    let mut found = Vec::new(alloc);
    for zone in organisation.zones() {
        if is_delegated(organisation, above, zone) {
            found.push(*zone)?;
        }
    }
    Ok(found)
}

/// Whether an organisation delegates a zone, by the prefixes of those that it runs.
fn is_delegated(organisation: &Organisation, above: &TrieMap<u32>, zone: &Zone) -> bool
    requires { HasPrefixes (own_zones_of (seen organisation.now)) (trie_content above.now) }
    ensures { result ≡ is_delegated (seen organisation.now) zone.now }
{
    if organisation.runs(zone.group) {
        return false;
    }
    has_above(above, zone.prefix)
}

/// The rows of zones by their prefixes. Fails only if out of memory.
fn rows_by_prefix(alloc: Global, zones: &[Zone]) -> Result<TrieMap<u32>, AllocError>
    requires { length zones.now < most_entries }
    ensures { IfOk result (λ rows. HasPrefixes zones.now (trie_content rows)) }
{
    let mut rows = TrieMap::empty(alloc);
    for zone in zones {
        match rows.insert(zone.prefix, zone.row) {
            Ok(_before) => {}
            Err(_refused) => return Err(AllocError),
        }
    }
    Ok(rows)
}

/// Whether a map has a prefix strictly above this one. A prefix strictly above another covers the next shorter prefix.
fn has_above(rows: &TrieMap<u32>, prefix: Prefix) -> bool
    ensures { (zones : List AZone) → HasPrefixes zones (trie_content rows.now)
        → result ≡ list_any (λ z. is_strictly_below prefix z.prefix) zones }
{
    let len = prefix.len();
    if len == 0 {
        return false;
    }
    rows.longest_over(prefix.front(len - 1)).is_some()
}
