//! The servers of a register by their locators, and the groups that zones name.

ghost use Rattle.std.specs.Prelude.{◌≡◌, Some, IfOk, OnOk, if◌then◌else◌};
ghost use Rattle.std.specs.List.{list_all};
ghost use Rattle.std.specs.BTreeMap.{get};
ghost use Rattle.ddt_path.specs.declared.locator.Locator.{Locator as ALocator};
ghost use Rattle.ddt_path.specs.Locators.{lists};
ghost use Rattle.ddt_review.specs.Warnings.Found.{HasServers, HasNames, HasAddresses, address_of, address_cmp};
ghost use Rattle.ddt_review.specs.Warnings.UnreachableReason.{is_loopback as is_loopback_of, unreachable_reason as reach_of_locator};

use crate::warnings::unreachable_locators::{is_loopback, unreachable_reason};
use ddt_path::{Locator, Name};
use ddt_register::{Group, Zone};
use std::alloc::{AllocError, Global};
use std::collections::{BTreeMap, BTreeSet};

/// The family of a locator, 4 or 6, and the number of its address.
pub type Address = (u8, u128);

/// The address of a locator.
pub fn address(locator: Locator) -> Address
    ensures { result ≡ address_of locator }
{
    match locator {
        Locator::V4(number) => (4, u128::from(number)),
        Locator::V6(number) => (6, number),
    }
}

/// The row of a group by each address that a group lists. Fails only if out of memory.
pub fn servers(alloc: Global, groups: &[Group]) -> Result<BTreeMap<Address, u32>, AllocError>
    ensures { IfOk result (HasServers groups.now) }
{
    let mut rows = BTreeMap::new(alloc);
    for group in groups {
        add_locators(&mut rows, group)?;
    }
    Ok(rows)
}

/// Sets the row of each locator of a group.
fn add_locators(rows: &mut BTreeMap<Address, u32>, group: &Group) -> Result<(), AllocError>
    ensures { OnOk result ((l : ALocator) → get address_cmp rows.new (address_of l)
        ≡ (if lists group.now.locators l then Some group.now.row else get address_cmp rows.old (address_of l))) }
{
    for locator in group.locators.as_slice() {
        rows.insert(address(*locator), group.row)?;
    }
    Ok(())
}

/// The names of the groups that zones name. Fails only if out of memory.
pub fn named_groups(alloc: Global, zones: &[Zone]) -> Result<BTreeSet<Name>, AllocError>
    ensures { IfOk result (HasNames zones.now) }
{
    let mut names = BTreeSet::new(alloc);
    for zone in zones {
        names.insert(zone.group)?;
    }
    Ok(names)
}

/// The addresses of some locators. Fails only if out of memory.
pub fn addresses(alloc: Global, locators: &[Locator]) -> Result<BTreeSet<Address>, AllocError>
    ensures { IfOk result (HasAddresses locators.now) }
{
    let mut addresses = BTreeSet::new(alloc);
    for locator in locators {
        addresses.insert(address(*locator))?;
    }
    Ok(addresses)
}

/// Whether each locator of each group is a loopback one.
pub fn is_on_loopback(groups: &[Group]) -> bool
    ensures { result ≡ list_all (λ g. list_all (λ l. is_loopback_of (reach_of_locator l)) g.locators) groups.now }
{
    groups.iter().all(|group| is_group_on_loopback(group))
}

fn is_group_on_loopback(group: &Group) -> bool
    ensures { result ≡ list_all (λ l. is_loopback_of (reach_of_locator l)) group.now.locators }
{
    group
        .locators
        .as_slice()
        .iter()
        .all(|locator| is_loopback(unreachable_reason(*locator)))
}
