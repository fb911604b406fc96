//! The zones and sites that a side lacks and needs to run a group.

use crate::seam::line::{Meets, push_site, push_zone};
use crate::seam::runs_by_group::GroupRun;
use crate::seam::side::{Party, Side};
use ddt_config::{Authority, Child, Content, ServerConfig, SiteEntry};
use ddt_path::{Name, Prefix};
use std::alloc::AllocError;
use std::collections::BTreeMap;

/// Appends a line for each zone and each site of the joined register that one side has and the other lacks and needs to
/// run a group.
pub fn push_missing_items(
    text: &mut Vec<u8>,
    joined: &[ServerConfig],
    side: &Side,
    other: &Side,
    runs: &BTreeMap<Name, GroupRun>,
) -> Result<(), AllocError> {
    for config in joined {
        if is_needed(runs, config.name, other.party) {
            push_of_group(text, side, other, runs, config)?;
        }
    }
    Ok(())
}

/// Whether a group can't be run because of what a party lacks. For a foreign group only their side counts.
fn is_needed(runs: &BTreeMap<Name, GroupRun>, group: Name, party: Party) -> bool {
    match runs.get(&group) {
        Some(run) => !run.is_good() && (party == Party::Theirs || !run.is_foreign),
        None => false,
    }
}

fn push_of_group(
    text: &mut Vec<u8>,
    side: &Side,
    other: &Side,
    runs: &BTreeMap<Name, GroupRun>,
    config: &ServerConfig,
) -> Result<(), AllocError> {
    for authority in config.authorities.as_slice() {
        let prefix = authority.prefix;
        if other.zones.contains_key(&prefix) {
            push_inside(text, side, other, runs, authority)?;
        } else {
            push_lacked(text, side, other, prefix, meets_at(other, config, prefix))?;
        }
    }
    Ok(())
}

/// What an identifier in a zone that a side lacks meets at the servers of the zone's group, run from that side.
fn meets_at(side: &Side, config: &ServerConfig, prefix: Prefix) -> Meets {
    let servers = config.locators;
    let Some(first) = servers.as_slice().first() else {
        return Meets::Silent;
    };
    match side.group_at(*first) {
        None => Meets::Silent,
        Some(group) if side.serves_above(group, prefix) => Meets::Hole,
        Some(_) => Meets::NotAuthoritative,
    }
}

/// Appends what the other side lacks directly in a zone that it has. A zone of a group that it can't run either is left
/// out; it has its line among those of that group.
fn push_inside(
    text: &mut Vec<u8>,
    side: &Side,
    other: &Side,
    runs: &BTreeMap<Name, GroupRun>,
    authority: &Authority,
) -> Result<(), AllocError> {
    match &authority.content {
        Content::Children(children) => {
            push_children(text, side, other, runs, children.as_slice())
        }
        Content::Sites(sites) => push_sites(text, side, other, sites.as_slice()),
    }
}

fn push_children(
    text: &mut Vec<u8>,
    side: &Side,
    other: &Side,
    runs: &BTreeMap<Name, GroupRun>,
    children: &[Child],
) -> Result<(), AllocError> {
    for child in children {
        match side.zones.get(&child.prefix) {
            Some(served)
                if !other.zones.contains_key(&child.prefix)
                    && !is_needed(runs, served.group, other.party) => {
                push_lacked(text, side, other, child.prefix, Meets::Hole)?;
            }
            _ => {}
        }
    }
    Ok(())
}

fn push_sites(
    text: &mut Vec<u8>,
    side: &Side,
    other: &Side,
    sites: &[SiteEntry],
) -> Result<(), AllocError> {
    for site in sites {
        if !other.sites.contains_key(&site.prefix) {
            let etrs = site.etrs;
            let first = (side.party, etrs.as_slice());
            push_site(text, site.prefix, first, (other.party, None), Meets::Hole)?;
        }
    }
    Ok(())
}

/// Appends a zone that the other side lacks.
fn push_lacked(
    text: &mut Vec<u8>,
    side: &Side,
    other: &Side,
    prefix: Prefix,
    meets: Meets,
) -> Result<(), AllocError> {
    match side.zones.get(&prefix) {
        Some(served) => push_zone(
            text,
            prefix,
            (side.party, *served),
            (other.party, None),
            meets,
        ),
        None => Ok(()),
    }
}
