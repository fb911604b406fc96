//! The first item of each prefix, name or locator. Rows rise within a list, so the first item has the least row.

ghost use Rattle.std.specs.Prelude.{◌≡◌, ◌+◌, ◌<◌, ◌≤◌, ℕ, false, List, length, find, unwrap_or, IfOk, OnOk, if◌then◌else◌};
ghost use Rattle.std.specs.Ordering.{nat_cmp, eq_by_cmp};
ghost use Rattle.std.specs.Option.{option_map, option_or};
ghost use Rattle.std.specs.Cmp.Lexicographic.{slice_cmp};
ghost use Rattle.std.specs.BTreeMap.{get};
ghost use Rattle.std.specs.FinMap as map;
ghost use Rattle.ddt_path.specs.declared.locator.Locator.{Locator as ALocator};
ghost use Rattle.ddt_path.specs.Covers.{is_same_path};
ghost use Rattle.ddt_path.specs.Locators.{lists};
ghost use Rattle.ddt_path.specs.Names.{is_same_name};
ghost use Rattle.ddt_register.specs.Rows.{first_row};
ghost use Rattle.ddt_trie.specs.PrefixMap.{most_entries};
ghost use Rattle.ddt_trie.specs.Trie.{trie_content};
ghost use Rattle.ddt_review.specs.Faults.Told.{HasFirstOf, locator_cmp, row_of_group, row_of_zone};

use ddt_path::{Locator, Name, Prefix, Role};
use ddt_register::{Group, Site, Zone};
use ddt_trie::{PrefixMap, TrieMap};
use std::alloc::{AllocError, Global};
use std::collections::BTreeMap;

/// The row of a zone or of a group, and its kind.
#[derive(Clone, Copy, PartialEq, Eq)]
pub struct RowAndKind {
    pub row: u32,
    pub kind: Role,
}

/// Puts a value at a key if it has none. Fails only if out of memory.
fn put_first<K: Ord + Drop, V: Drop>(
    map: &mut BTreeMap<K, V>,
    key: K,
    value: V,
) -> Result<(), AllocError>
    ensures here { OnOk result (get K.cmp map.new key ≡ Some (unwrap_or (get K.cmp map.old key) value)) }
    ensures elsewhere { OnOk result ((k : K) → eq_by_cmp K.cmp key k ≡ false
        → get K.cmp map.new k ≡ get K.cmp map.old k) }
{
    map.entry(key)?.or_insert(value);
    Ok(())
}

/// Puts a zone at its prefix if that has none. Fails only if out of memory.
fn put_zone(first: &mut TrieMap<RowAndKind>, zone: &Zone) -> Result<(), AllocError>
    requires { map.len (trie_content first.old) < most_entries }
    ensures first { OnOk result ((p : List ℕ) → map.get (trie_content first.new) p
        ≡ option_or (map.get (trie_content first.old) p)
        (if is_same_path zone.now.prefix p then Some (row_of_zone zone.now) else None)) }
    ensures count { OnOk result (map.len (trie_content first.new) ≤ map.len (trie_content first.old) + 1) }
{
    if first.get(zone.prefix).is_some() {
        return Ok(());
    }
    let value = RowAndKind {
        row: zone.row,
        kind: zone.kind,
    };
    match first.insert(zone.prefix, value) {
        Ok(_before) => Ok(()),
        Err(_refused) => Err(AllocError),
    }
}

/// The first zone of each prefix. Fails only if out of memory.
pub fn first_zones(alloc: Global, zones: &[Zone]) -> Result<TrieMap<RowAndKind>, AllocError>
    requires { length zones.now < most_entries }
    ensures { IfOk result (λ first. HasFirstOf (trie_content first) zones.now) }
{
    let mut first = TrieMap::empty(alloc);
    for zone in zones {
        put_zone(&mut first, zone)?;
    }
    Ok(first)
}

/// The row of the first site of each prefix. Fails only if out of memory.
pub fn first_sites(alloc: Global, sites: &[Site]) -> Result<BTreeMap<Prefix, u32>, AllocError>
    ensures { IfOk result (λ first. (p : List ℕ) → get (slice_cmp nat_cmp) first p
        ≡ first_row (λ s. s.row) (λ s. is_same_path s.prefix p) sites.now) }
{
    let mut first = BTreeMap::new(alloc);
    for site in sites {
        put_first(&mut first, site.prefix, site.row)?;
    }
    Ok(first)
}

/// The first group of each name. Fails only if out of memory.
pub fn first_groups(
    alloc: Global,
    groups: &[Group],
) -> Result<BTreeMap<Name, RowAndKind>, AllocError>
    ensures { IfOk result (λ first. (name : List ℕ) → get (slice_cmp nat_cmp) first name
        ≡ option_map row_of_group (find (λ g. is_same_name g.name name) groups.now)) }
{
    let mut first = BTreeMap::new(alloc);
    for group in groups {
        let value = RowAndKind {
            row: group.row,
            kind: group.kind,
        };
        put_first(&mut first, group.name, value)?;
    }
    Ok(first)
}

/// Puts the row of a group at each of its locators that has none. Fails only if out of memory.
fn put_locators(first: &mut BTreeMap<Locator, u32>, group: &Group) -> Result<(), AllocError>
    ensures { OnOk result ((l : ALocator) → get locator_cmp first.new l ≡ option_or (get locator_cmp first.old l)
        (if lists group.now.locators l then Some group.now.row else None)) }
{
    for locator in group.locators.as_slice() {
        put_first(first, *locator, group.row)?;
    }
    Ok(())
}

/// The row of the first group of each locator. Fails only if out of memory.
pub fn first_of_locators(
    alloc: Global,
    groups: &[Group],
) -> Result<BTreeMap<Locator, u32>, AllocError>
    ensures { IfOk result (λ first. (l : ALocator) → get locator_cmp first l
        ≡ first_row (λ g. g.row) (λ g. lists g.locators l) groups.now) }
{
    let mut first = BTreeMap::new(alloc);
    for group in groups {
        put_locators(&mut first, group)?;
    }
    Ok(first)
}
