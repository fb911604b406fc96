//! The identifiers that a change of a register touches.

use ddt_asking::changed_identifiers;
use ddt_check::Accepted;
use ddt_path::{Name, Prefix, Xeid};
use ddt_plan::{ItemChange, item_changes};
use std::alloc::{AllocError, Global};
use std::collections::BTreeSet;

/// Returns an identifier of each block whose assignment differs, of each zone and site that differs, and of each zone
/// whose group has other locators; each of them once, in their order.
pub fn identifiers_of_change(
    alloc: Global,
    before: &Accepted,
    after: &Accepted,
) -> Result<Vec<Xeid>, AllocError> {
    let mut touched = BTreeSet::new(alloc);
    add_blocks(alloc, &mut touched, before, after)?;
    add_changes(alloc, &mut touched, before, after)?;
    in_order(alloc, touched)
}

/// Adds an identifier of each block whose assignment differs.
fn add_blocks(
    alloc: Global,
    touched: &mut BTreeSet<Xeid>,
    before: &Accepted,
    after: &Accepted,
) -> Result<(), AllocError> {
    for xeid in &changed_identifiers(alloc, before, after)? {
        touched.insert(*xeid)?;
    }
    Ok(())
}

/// Adds an identifier of each zone and site that differs, and of each zone whose group differs.
fn add_changes(
    alloc: Global,
    touched: &mut BTreeSet<Xeid>,
    before: &Accepted,
    after: &Accepted,
) -> Result<(), AllocError> {
    let changes = item_changes(alloc, before, after)?;
    add_items(touched, &changes.zones)?;
    add_items(touched, &changes.sites)?;
    let groups = names_of(alloc, &changes.groups)?;
    add_zones(touched, before, &groups)?;
    add_zones(touched, after, &groups)
}

/// Adds an identifier of each item that differs.
fn add_items<V>(
    touched: &mut BTreeSet<Xeid>,
    changes: &[ItemChange<Prefix, V>],
) -> Result<(), AllocError> {
    for change in changes {
        touched.insert(change.key.inner())?;
    }
    Ok(())
}

/// Returns the names of the groups that differ.
fn names_of<V>(
    alloc: Global,
    changes: &[ItemChange<Name, V>],
) -> Result<BTreeSet<Name>, AllocError> {
    let mut names = BTreeSet::new(alloc);
    for change in changes {
        names.insert(change.key)?;
    }
    Ok(names)
}

/// Adds an identifier of each zone that one of these groups serves.
fn add_zones(
    touched: &mut BTreeSet<Xeid>,
    accepted: &Accepted,
    groups: &BTreeSet<Name>,
) -> Result<(), AllocError> {
    for zone in accepted.register().zones.as_slice() {
        if groups.contains(&zone.group) {
            touched.insert(zone.prefix.inner())?;
        }
    }
    Ok(())
}

fn in_order(alloc: Global, touched: BTreeSet<Xeid>) -> Result<Vec<Xeid>, AllocError> {
    let mut identifiers = Vec::new(alloc);
    for xeid in touched {
        identifiers.push(xeid)?;
    }
    Ok(identifiers)
}
