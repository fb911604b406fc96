//! The faults of sites whose zone is missing, one for each zone in place of one for each site.

use crate::sheets::{BrokenRule, FaultKind, FaultLine, FaultScope, printed_prefix};
use crate::warnings::zoneless_sites;
use ddt_check::{Accepted, Rule};
use ddt_path::Prefix;
use ddt_register::Register;
use std::alloc::{AllocError, Global};
use std::collections::{BTreeMap, BTreeSet};

/// The sites that a missing zone had.
#[derive(Clone, Copy)]
struct Orphans {
    /// The line of the first.
    line: u64,
    rule: BrokenRule,
    count: usize,
}

/// Returns the same faults, with one for all sites that were in a zone which the register has no more. `path` is that
/// of the earlier register. Fails only if out of memory.
pub(crate) fn by_missing_zone(
    alloc: Global,
    faults: Vec<FaultLine>,
    path: &str,
    before: &Accepted,
    register: &Register,
) -> Result<Vec<FaultLine>, AllocError> {
    let mut rows = BTreeSet::new(alloc);
    for fault in &faults {
        if let Some(rule) = outside(fault) {
            rows.insert(rule.row)?;
        }
    }
    let mut zones = BTreeMap::new(alloc);
    for site in &zoneless_sites(alloc, before, register, &rows)? {
        zones.insert(site.row, site.zone)?;
    }
    let mut orphans = BTreeMap::new(alloc);
    let mut others = Vec::new(alloc);
    for fault in faults {
        match outside(&fault).and_then(|rule| zone_of(&zones, rule)) {
            Some((rule, zone)) => count(&mut orphans, zone, fault.line, rule)?,
            None => others.push(fault)?,
        }
    }
    for (zone, lost) in orphans {
        others.push(missing_zone(alloc, path, zone, lost)?)?;
    }
    Ok(others)
}

/// Returns the broken rule of a site that is in no zone of Map-Servers.
fn outside(fault: &FaultLine) -> Option<BrokenRule> {
    match fault.about {
        FaultKind::Rule(rule) if rule.rule == Rule::SiteOutside => Some(rule),
        _ => None,
    }
}

fn zone_of(zones: &BTreeMap<u32, Prefix>, rule: BrokenRule) -> Option<(BrokenRule, Prefix)> {
    Some((rule, *zones.get(&rule.row)?))
}

/// Counts a site that a zone had.
fn count(
    orphans: &mut BTreeMap<Prefix, Orphans>,
    zone: Prefix,
    line: u64,
    rule: BrokenRule,
) -> Result<(), AllocError> {
    let counted = match orphans.get(&zone) {
        Some(lost) => Orphans {
            count: lost.count.saturating_add(1),
            ..*lost
        },
        None => Orphans {
            line,
            rule,
            count: 1,
        },
    };
    orphans.insert(zone, counted)?;
    Ok(())
}

/// Returns the fault of a zone that is missing.
fn missing_zone(
    alloc: Global,
    path: &str,
    zone: Prefix,
    lost: Orphans,
) -> Result<FaultLine, AllocError> {
    let rule = lost.rule.rule;
    let (count, word) = (lost.count, if lost.count == 1 { "site" } else { "sites" });
    let zone = printed_prefix(alloc, zone)?;
    Ok(FaultLine {
        scope: FaultScope::Record,
        line: lost.line,
        about: FaultKind::Rule(lost.rule),
        text: format!(in alloc;
            "{rule}: the zone {zone} of {path} is missing, which covers {count} {word}"
        )?,
    })
}
