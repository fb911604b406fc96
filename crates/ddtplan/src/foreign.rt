//! The groups whose servers others run, as the option `--foreign` names them.

use crate::inputs::Failure;
use ddt_check::Accepted;
use ddt_path::{Locator, Name};
use std::alloc::{AllocError, Global};
use std::collections::BTreeSet;

/// Returns the groups that words name. Refused if a word is no name, or if none of these registers has a group of it.
pub fn foreign_groups(
    rt: &HostRuntime,
    registers: &[&Accepted],
    words: &[&str],
) -> Result<BTreeSet<Name>, Failure> {
    let mut names = BTreeSet::new(rt.alloc());
    for word in words {
        let Some(name) = Name::of(word.as_bytes()) else {
            return Err(format!(in rt.alloc(); "{word} is no name of a group"));
        };
        if !is_named(registers, name) {
            return Err(format!(in rt.alloc(); "no group of the register is named {word}"));
        }
        names.insert(name).map_err(|_| Err(AllocError))?;
    }
    Ok(names)
}

/// Returns whether one of these registers has a group of this name.
fn is_named(registers: &[&Accepted], name: Name) -> bool {
    for register in registers {
        if register.group_named(name).is_some() {
            return true;
        }
    }
    false
}

/// Returns the locators of a register's groups that aren't foreign.
pub fn our_locators(
    alloc: Global,
    accepted: &Accepted,
    foreign: &BTreeSet<Name>,
) -> Result<BTreeSet<Locator>, AllocError> {
    let mut locators = BTreeSet::new(alloc);
    for group in accepted.register().groups.as_slice() {
        if !foreign.contains(&group.name) {
            push_locators(&mut locators, group.locators.as_slice())?;
        }
    }
    Ok(locators)
}

fn push_locators(to: &mut BTreeSet<Locator>, locators: &[Locator]) -> Result<(), AllocError> {
    for locator in locators {
        to.insert(*locator)?;
    }
    Ok(())
}

/// Returns the rows of the zones that foreign groups serve.
pub fn foreign_zones(
    alloc: Global,
    accepted: &Accepted,
    foreign: &BTreeSet<Name>,
) -> Result<BTreeSet<u32>, AllocError> {
    let mut rows = BTreeSet::new(alloc);
    for zone in accepted.register().zones.as_slice() {
        if foreign.contains(&zone.group) {
            rows.insert(zone.row)?;
        }
    }
    Ok(rows)
}
