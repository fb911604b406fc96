//! Why a row breaks a rule, in words. All calls fail only if out of memory.

use crate::sheets::broken_rule::BrokenRule;
use crate::sheets::printed::{printed, printed_locator, printed_prefix};
use crate::sheets::sheet::line_of;
use ddt_check::Rule;
use ddt_path::{Locator, MOST_LOCATORS, Name, Role};
use ddt_register::{Group, Register, Site, Zone};
use std::alloc::{AllocError, Global};

/// The reasons why rows of a register break rules, by the line of each row.
#[derive(Clone, Copy)]
pub(crate) struct RuleReasons<'a> {
    pub(crate) alloc: Global,
    pub(crate) register: &'a Register,
    pub(crate) lines: &'a [u64],
}

impl<'a> RuleReasons<'a> {
    /// Why the row breaks the rule.
    pub(crate) fn reason(&self, broken: BrokenRule) -> Result<String, AllocError> {
        let BrokenRule { row, rule, other } = broken;
        match rule {
            Rule::NoRoot => self.no_root(row, other),
            Rule::DuplicateZone => self.stands_already(self.zone_text(row)?, other),
            Rule::DuplicateSite => self.stands_already(self.site_text(row)?, other),
            Rule::UnknownGroup => self.unknown_group(row),
            Rule::Role => self.other_role(row, other),
            Rule::Locators => self.wrong_locators(row, other),
            Rule::BelowMapServer => self.below_map_server(row, other),
            Rule::SiteOutside => self.site_outside(row, other),
            Rule::TooManyEtrs => self.too_many_etrs(row),
            Rule::DuplicateGroup => self.duplicate_group(row, other),
        }
    }

    /// The name of the group that a zone names.
    pub(crate) fn group_of_zone(&self, row: u32) -> Option<Name> {
        Some(self.zone_at(row)?.group)
    }

    fn zone_at(&self, row: u32) -> Option<&'a Zone> {
        let zones = self.register.zones.as_slice();
        let place = zones.binary_search_by_key(&row, |zone| zone.row).ok()?;
        zones.get(place)
    }

    fn site_at(&self, row: u32) -> Option<&'a Site> {
        let sites = self.register.sites.as_slice();
        let place = sites.binary_search_by_key(&row, |site| site.row).ok()?;
        sites.get(place)
    }

    fn group_at(&self, row: u32) -> Option<&'a Group> {
        let groups = self.register.groups.as_slice();
        let place = groups.binary_search_by_key(&row, |group| group.row).ok()?;
        groups.get(place)
    }

    /// The prefix of a zone.
    fn zone_text(&self, row: u32) -> Result<String, AllocError> {
        match self.zone_at(row) {
            Some(zone) => printed_prefix(self.alloc, zone.prefix),
            None => format!(in self.alloc; "the zone"),
        }
    }

    /// The prefix of a site.
    fn site_text(&self, row: u32) -> Result<String, AllocError> {
        match self.site_at(row) {
            Some(site) => printed_prefix(self.alloc, site.prefix),
            None => format!(in self.alloc; "the site"),
        }
    }

    /// The name of a group, in quotes.
    fn name_text(&self, name: Option<Name>) -> Result<String, AllocError> {
        match name {
            Some(name) => {
                let name = printed(self.alloc, name.as_bytes())?;
                format!(in self.alloc; "'{name}'")
            }
            None => format!(in self.alloc; "that it names"),
        }
    }

    /// The line of the other row of a fault, in words.
    fn other_line(&self, other: Option<u32>) -> Result<String, AllocError> {
        match other {
            Some(row) => format!(in self.alloc; "line {}", line_of(self.lines, row)),
            None => format!(in self.alloc; "another line"),
        }
    }

    fn stands_already(&self, text: String, other: Option<u32>) -> Result<String, AllocError> {
        let line = self.other_line(other)?;
        format!(in self.alloc; "{text} stands in {line} already")
    }

    fn no_root(&self, row: u32, other: Option<u32>) -> Result<String, AllocError> {
        if other.is_some() {
            return self.stands_already(format!(in self.alloc; "the root")?, other);
        }
        if self.lines.is_empty() {
            return format!(in self.alloc; "no zone has the prefix *, as the file has no row");
        }
        if row == 0 {
            return format!(in self.alloc; "no zone has the prefix *");
        }
        format!(in self.alloc; "the root is a zone of Map-Servers")
    }

    fn unknown_group(&self, row: u32) -> Result<String, AllocError> {
        let name = self.name_text(self.group_of_zone(row))?;
        format!(in self.alloc; "no row defines the group {name}")
    }

    fn other_role(&self, row: u32, other: Option<u32>) -> Result<String, AllocError> {
        let name = self.name_text(self.group_of_zone(row))?;
        let line = self.other_line(other)?;
        let servers = match self.zone_at(row) {
            Some(Zone { kind: Role::Ms, .. }) => "DDT nodes",
            _ => "Map-Servers",
        };
        format!(in self.alloc; "the group {name} of {line} is of {servers}")
    }

    fn below_map_server(&self, row: u32, other: Option<u32>) -> Result<String, AllocError> {
        let zone = self.zone_text(row)?;
        let line = self.other_line(other)?;
        format!(in self.alloc; "{zone} lies below the zone of Map-Servers of {line}")
    }

    fn site_outside(&self, row: u32, other: Option<u32>) -> Result<String, AllocError> {
        let site = self.site_text(row)?;
        if other.is_none() {
            return format!(in self.alloc; "no zone covers {site}");
        }
        let line = self.other_line(other)?;
        format!(in self.alloc; "the zone of {line} covers {site} and is one of DDT nodes")
    }

    fn too_many_etrs(&self, row: u32) -> Result<String, AllocError> {
        let count = match self.site_at(row) {
            Some(site) => site.etrs.as_slice().len(),
            None => 0,
        };
        format!(in self.alloc; "{count} ETRs where {MOST_LOCATORS} may be")
    }

    fn duplicate_group(&self, row: u32, other: Option<u32>) -> Result<String, AllocError> {
        let name = match self.group_at(row) {
            Some(group) => Some(group.name),
            None => None,
        };
        let name = self.name_text(name)?;
        self.stands_already(format!(in self.alloc; "the name {name}")?, other)
    }

    fn wrong_locators(&self, row: u32, other: Option<u32>) -> Result<String, AllocError> {
        let Some(group) = self.group_at(row) else {
            return format!(in self.alloc; "the group has a wrong locator");
        };
        let locators = group.locators.as_slice();
        let count = locators.len();
        if count == 0 {
            return format!(in self.alloc; "the group has no locator");
        }
        if count > MOST_LOCATORS {
            return format!(in self.alloc; "{count} locators where {MOST_LOCATORS} may be");
        }
        if let Some(locator) = repeated(locators) {
            let locator = printed_locator(self.alloc, locator)?;
            return format!(in self.alloc; "{locator} stands twice in the row");
        }
        self.shared_locator(locators, other)
    }

    /// The locator that another group has too, in words.
    fn shared_locator(
        &self,
        locators: &[Locator],
        other: Option<u32>,
    ) -> Result<String, AllocError> {
        let group = match other {
            Some(row) => self.group_at(row),
            None => None,
        };
        let Some(group) = group else {
            return format!(in self.alloc; "a locator is that of another group");
        };
        let name = self.name_text(Some(group.name))?;
        let line = self.other_line(other)?;
        match shared(locators, group.locators.as_slice()) {
            Some(locator) => {
                let locator = printed_locator(self.alloc, locator)?;
                format!(in self.alloc; "{locator} is that of the group {name} in {line}")
            }
            None => format!(in self.alloc; "a locator is that of the group {name} in {line}"),
        }
    }
}

/// The first locator that occurs twice in a list.
fn repeated(locators: &[Locator]) -> Option<Locator> {
    let (first, rest) = locators.split_first()?;
    if rest.contains(first) {
        Some(*first)
    } else {
        repeated(rest)
    }
}

/// The first locator that is also among the first eight of another group.
fn shared(locators: &[Locator], others: &[Locator]) -> Option<Locator> {
    let others = others.get(..MOST_LOCATORS).unwrap_or(others);
    locators
        .iter()
        .find(|locator| others.contains(locator))
        .copied()
}
