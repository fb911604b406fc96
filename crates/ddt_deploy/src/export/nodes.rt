//! The zones and the delegations of DDT nodes (RFC 8111, section 4).

ghost use Rattle.std.specs.Prelude.{◌≡◌, ◌++◌, IfOk, IsPermutation, OnOk, map};
ghost use Rattle.std.specs.List.{All, flat_map};
ghost use Rattle.ddt_deploy.specs.Export.Rows.{IsNamedBy, delegation_in, delegations_of as delegations_of_authority};

use crate::export::eid_prefix::EidPrefix;
use crate::export::row::{Missing, Row};
use ddt_config::{Authority, Child, Content, ServerConfig};
use ddt_path::{Form, LocatorSet, Prefix};
use std::alloc::{AllocError, Global};

/// A delegation and the zone that has it.
#[derive(Clone, Copy)]
pub(crate) struct Delegation {
    pub zone: Prefix,
    pub child: Child,
}

/// Returns the delegations of all zones, in the order of their prefixes.
pub(crate) fn delegation_rows(
    alloc: Global,
    config: &ServerConfig,
) -> Result<Vec<Row<Delegation>>, AllocError>
    ensures all { IfOk result (λ rows. IsPermutation (flat_map delegations_of_authority config.now.authorities)
        (map (λ r. r.entry) rows.items)) }
    ensures named { IfOk result (λ rows. All (λ r. IsNamedBy r.entry.child.prefix r.written) rows.items) }
{
    let mut delegations = delegations_of(alloc, config.authorities.as_slice())?;
    delegations.sort_unstable_by_key(|delegation| delegation.child.prefix);
    written_delegations(alloc, &delegations, &config.locators)
}

fn delegations_of(alloc: Global, authorities: &[Authority]) -> Result<Vec<Delegation>, AllocError>
    ensures { IfOk result (λ all. all.items ≡ flat_map delegations_of_authority authorities.now) }
{
    let mut delegations = Vec::new(alloc);
    for authority in authorities {
        push_authority(&mut delegations, authority)?;
    }
    Ok(delegations)
}

fn push_authority(
    delegations: &mut Vec<Delegation>,
    authority: &Authority,
) -> Result<(), AllocError>
    ensures { OnOk result (delegations.new.items
        ≡ delegations.old.items ++ delegations_of_authority authority.now) }
{
    match &authority.content {
        Content::Children(children) => {
            push_children(delegations, authority.prefix, children.as_slice())
        }
        Content::Sites(_sites) => Ok(()),
    }
}

fn push_children(
    delegations: &mut Vec<Delegation>,
    zone: Prefix,
    children: &[Child],
) -> Result<(), AllocError>
    ensures { OnOk result (delegations.new.items ≡ delegations.old.items ++ map (delegation_in zone) children.now) }
{
    for child in children {
        delegations.push(Delegation {
            zone,
            child: *child,
        })?;
    }
    Ok(())
}

/// Returns each of these delegations of a group with the locators `own`, with its prefix in OOR or why it is missing.
fn written_delegations(
    alloc: Global,
    delegations: &[Delegation],
    own: &LocatorSet,
) -> Result<Vec<Row<Delegation>>, AllocError>
    ensures all { IfOk result (λ rows. map (λ r. r.entry) rows.items ≡ delegations.now) }
    ensures named { IfOk result (λ rows. All (λ r. IsNamedBy r.entry.child.prefix r.written) rows.items) }
{
    let mut rows = Vec::new(alloc);
    let mut outer = None;
    for delegation in delegations {
        let written = written_delegation(&delegation.child, own, &outer);
        outer = last_written(&outer, delegation.child.prefix, &written);
        rows.push(Row {
            entry: *delegation,
            written,
        })?;
    }
    Ok(rows)
}

/// Returns the prefix in OOR of a delegation of a group with the locators `own`, or why it is missing. `outer` is the
/// last delegation before it that OOR has: a prefix is ordered before all that it covers.
fn written_delegation(
    child: &Child,
    own: &LocatorSet,
    outer: &Option<Prefix>,
) -> Result<EidPrefix, Missing>
    ensures { IsNamedBy child.now.prefix result }
{
    // No two groups share a locator.
    if child.locators == *own {
        return Err(Missing::OwnZone);
    }
    match apart(child.prefix, outer) {
        Ok(written) if written.len == 0 => Err(Missing::WholeFamily),
        written => written,
    }
}

/// Returns a prefix in OOR, or why it is missing, if `outer` is the last one before it that OOR has.
pub(crate) fn apart(prefix: Prefix, outer: &Option<Prefix>) -> Result<EidPrefix, Missing>
    ensures { IsNamedBy prefix result }
{
    match outer {
        Some(outer) if outer.covers(prefix) => Err(Missing::Inside),
        _ => EidPrefix::of(prefix),
    }
}

/// Returns the last prefix that OOR has, up to `prefix`.
pub(crate) fn last_written(
    outer: &Option<Prefix>,
    prefix: Prefix,
    written: &Result<EidPrefix, Missing>,
) -> Option<Prefix> {
    match (outer, written) {
        (_, Ok(_written)) => Some(prefix),
        (Some(outer), Err(_missing)) => Some(*outer),
        (None, Err(_missing)) => None,
    }
}

/// Returns the address families in which ranges of instances delegate, each once: OOR has them in place of the ranges.
pub(crate) fn families_of(
    alloc: Global,
    rows: &[Row<Delegation>],
) -> Result<Vec<EidPrefix>, AllocError> {
    let mut families = Vec::new(alloc);
    for row in rows {
        if let (Form::Range { .. }, Ok(written)) = (row.entry.zone.form(), row.written) {
            // Delegations are in the order of instances and families.
            if families.last() != Some(&written.family()) {
                families.push(written.family())?;
            }
        }
    }
    Ok(families)
}

/// Returns the zones, in the order of their prefixes. A zone inside one of these families is missing in OOR.
pub(crate) fn zone_rows(
    alloc: Global,
    authorities: &[Authority],
    families: &[EidPrefix],
) -> Result<Vec<Row<Prefix>>, AllocError>
    ensures all { IfOk result (λ rows. IsPermutation (map (λ a. a.prefix) authorities.now)
        (map (λ r. r.entry) rows.items)) }
    ensures named { IfOk result (λ rows. All (λ r. IsNamedBy r.entry r.written) rows.items) }
{
    let mut zones = zones_of(alloc, authorities)?;
    zones.sort_unstable();
    written_zones(alloc, &zones, families)
}

/// Returns the prefixes of the zones, in their order.
pub(crate) fn zones_of(alloc: Global, authorities: &[Authority]) -> Result<Vec<Prefix>, AllocError>
    ensures { IfOk result (λ zones. zones.items ≡ map (λ a. a.prefix) authorities.now) }
{
    let mut zones = Vec::new(alloc);
    for authority in authorities {
        zones.push(authority.prefix)?;
    }
    Ok(zones)
}

fn written_zones(
    alloc: Global,
    zones: &[Prefix],
    families: &[EidPrefix],
) -> Result<Vec<Row<Prefix>>, AllocError>
    ensures all { IfOk result (λ rows. map (λ r. r.entry) rows.items ≡ zones.now) }
    ensures named { IfOk result (λ rows. All (λ r. IsNamedBy r.entry r.written) rows.items) }
{
    let mut rows = Vec::new(alloc);
    let mut outer = None;
    for zone in zones {
        let written = written_zone(*zone, families, &outer);
        outer = last_written(&outer, *zone, &written);
        rows.push(Row {
            entry: *zone,
            written,
        })?;
    }
    Ok(rows)
}

fn written_zone(
    prefix: Prefix,
    families: &[EidPrefix],
    outer: &Option<Prefix>,
) -> Result<EidPrefix, Missing>
    ensures { IsNamedBy prefix result }
{
    match apart(prefix, outer) {
        Ok(written) if families.contains(&written.family()) => Err(Missing::Inside),
        written => written,
    }
}
