//! A register whose servers have addresses of one machine.

ghost use Rattle.std.specs.Prelude.{◌≡◌, ◌≤◌, length, map, IfOk, IsTrue};
ghost use Rattle.std.specs.List.{list_all};
ghost use Rattle.ddt_check.specs.Rules.{IsAccepted};
ghost use Rattle.ddt_deploy.specs.Loopback.Addresses.{most_servers, server_addresses as addresses_of_servers, is_server_address};
ghost use Rattle.ddt_deploy.specs.Loopback.Moved.{AreOneForOne, kept_of, locators_in};

use crate::loopback::address::server_addresses;
use ddt_check::Accepted;
use ddt_path::Listed;
use ddt_register::{Etrs, Group, Register, Site};
use std::alloc::{AllocError, Global};

/// Returns the register with each locator of a server group replaced by an address of 127.0.0.0/8: from 127.0.0.1, in
/// the order of the groups' rows and of the locators in a row. No server gets 127.0.0.0, 127.255.255.255 or 127.0.0.53,
/// at which `ddt loop` has its resolver. IPv6 locators are replaced too. Since no two locators of an accepted register
/// are the same, each gets an address of its own, and the register that results is accepted too.
///
/// Rows, names, kinds, prefixes and ETRs stay as they are. So an ETR that has an address of 127.0.0.0/8 may now have
/// that of a server; no rule forbids it, and servers only name ETRs.
pub fn to_loopback(alloc: Global, register: &Accepted) -> Result<Register, AllocError>
    ensures zones { IfOk result (λ r. r.zones ≡ register.now.zones) }
    ensures sites { IfOk result (λ r. r.sites ≡ register.now.sites) }
    // Each group has its name, its kind, its row, and as many locators.
    ensures groups { IfOk result (λ r. map kept_of r.groups ≡ map kept_of register.now.groups) }
    ensures locators { IfOk result (λ r. locators_in r.groups
        ≡ addresses_of_servers (length (locators_in register.now.groups))) }
    ensures one_for_one { IfOk result (λ r. AreOneForOne (locators_in register.now.groups) (locators_in r.groups)) }
    ensures loopback { IfOk result (λ r. IsTrue (list_all is_server_address (locators_in r.groups))) }
    ensures accepted { IfOk result (λ r. IsAccepted r) }
{
    let old = register.register();
    let zones = Vec::from_slice(alloc, old.zones.as_slice())?;
    let sites = copied_sites(alloc, old.sites.as_slice())?;
    let groups = moved_groups(alloc, old.groups.as_slice())?;
    Ok(Register::of(zones, sites, groups).unwrap())
}

/// Returns the same sites.
fn copied_sites(alloc: Global, sites: &[Site]) -> Result<Vec<Site>, AllocError>
    ensures { IfOk result (λ copied. copied.items ≡ sites.now) }
{
    let mut copied = Vec::with_capacity(alloc, sites.len())?;
    for site in sites {
        copied.push(Site {
            prefix: site.prefix,
            etrs: Etrs::of(Vec::from_slice(alloc, site.etrs.as_slice())?),
            row: site.row,
        })?;
    }
    Ok(copied)
}

/// Returns the groups with the addresses of servers as their locators, in order.
fn moved_groups(alloc: Global, groups: &[Group]) -> Result<Vec<Group>, AllocError>
    requires { length (locators_in groups.now) ≤ most_servers }
    ensures kept { IfOk result (λ moved. map kept_of moved.items ≡ map kept_of groups.now) }
    ensures locators { IfOk result (λ moved. locators_in moved.items
        ≡ addresses_of_servers (length (locators_in groups.now))) }
{
    let mut moved = Vec::with_capacity(alloc, groups.len())?;
    let mut first = 0;
    for group in groups {
        let count = group.locators.as_slice().len();
        moved.push(Group {
            name: group.name,
            kind: group.kind,
            locators: Listed::of(server_addresses(alloc, first, count)?),
            row: group.row,
        })?;
        first += count;
    }
    Ok(moved)
}
