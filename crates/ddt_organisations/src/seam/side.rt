//! One of two registers, with the maps that the lines of a seam are read off.

use ddt_check::Accepted;
use ddt_compile::{compile, locators_by_name};
use ddt_config::{Authority, Content, ServerConfig};
use ddt_path::{Locator, LocatorSet, Name, Prefix, Role};
use std::alloc::{AllocError, Global};
use std::collections::{BTreeMap, BTreeSet};

/// The party whose register it is.
#[derive(Clone, Copy, Debug, PartialEq, Eq)]
pub enum Party {
    Ours,
    Theirs,
}

impl Party {
    /// The word for it in the lines.
    pub fn word(self) -> &'static str {
        match self {
            Party::Ours => "ours",
            Party::Theirs => "theirs",
        }
    }
}

/// A zone with the servers of its group.
#[derive(Clone, Copy, Debug, PartialEq, Eq)]
pub struct Served {
    pub kind: Role,
    pub group: Name,
    pub servers: LocatorSet,
}

/// A register by its prefixes and locators, and what it compiles to.
#[derive(Drop)]
pub struct Side {
    pub party: Party,
    pub configs: Vec<ServerConfig>,
    pub zones: BTreeMap<Prefix, Served>,
    pub sites: BTreeMap<Prefix, LocatorSet>,
    /// The zones that have a zone or a site directly in them.
    filled: BTreeSet<Prefix>,
    /// The group of each locator.
    groups: BTreeMap<Locator, Name>,
}

impl Side {
    /// The side of a register. Fails only if out of memory.
    pub fn of(alloc: Global, party: Party, accepted: &Accepted) -> Result<Side, AllocError> {
        let mut side = Side {
            party,
            configs: Vec::new(alloc),
            zones: served_zones(alloc, accepted)?,
            sites: BTreeMap::new(alloc),
            filled: BTreeSet::new(alloc),
            groups: BTreeMap::new(alloc),
        };
        let configs = compile(alloc, accepted)?.into_vec();
        for config in &configs {
            side.take(config)?;
        }
        side.configs = configs;
        Ok(side)
    }

    fn take(&mut self, config: &ServerConfig) -> Result<(), AllocError> {
        for locator in config.locators.as_slice() {
            self.groups.insert(*locator, config.name)?;
        }
        for authority in config.authorities.as_slice() {
            self.take_authority(authority)?;
        }
        Ok(())
    }

    fn take_authority(&mut self, authority: &Authority) -> Result<(), AllocError> {
        match &authority.content {
            Content::Children(children) => {
                if !children.as_slice().is_empty() {
                    self.filled.insert(authority.prefix)?;
                }
            }
            Content::Sites(sites) => {
                for site in sites.as_slice() {
                    self.sites.insert(site.prefix, site.etrs)?;
                    self.filled.insert(authority.prefix)?;
                }
            }
        }
        Ok(())
    }

    /// Whether a zone or a site is directly in the zone of a prefix.
    pub fn is_filled(&self, prefix: Prefix) -> bool {
        self.filled.contains(&prefix)
    }

    /// The group that lists a locator.
    pub fn group_at(&self, locator: Locator) -> Option<Name> {
        self.groups.get(&locator).copied()
    }

    /// Whether a group serves a zone above a prefix.
    pub fn serves_above(&self, group: Name, prefix: Prefix) -> bool {
        for len in 0..prefix.len() {
            if self.is_of(prefix.front(len), group) {
                return true;
            }
        }
        false
    }

    /// Whether a group serves the zone of a prefix.
    pub fn is_of(&self, prefix: Prefix, group: Name) -> bool {
        match self.zones.get(&prefix) {
            Some(zone) => zone.group == group,
            None => false,
        }
    }
}

/// The zones of a register, with the servers of their groups.
fn served_zones(
    alloc: Global,
    accepted: &Accepted,
) -> Result<BTreeMap<Prefix, Served>, AllocError> {
    let sets = locators_by_name(alloc, accepted)?;
    let mut zones = BTreeMap::new(alloc);
    for zone in accepted.register().zones.as_slice() {
        let served = Served {
            kind: zone.kind,
            group: zone.group,
            servers: match sets.get(&zone.group) {
                Some(set) => *set,
                None => LocatorSet::none(),
            },
        };
        zones.insert(zone.prefix, served)?;
    }
    Ok(zones)
}
