//! The check of a register against all rules, in the order of their numbers.

ghost use Rattle.std.specs.Prelude.{◌≡◌, MatchOption, IfOk, IfErr};
ghost use Rattle.ddt_check.specs.Rules.{IsAccepted, IsLeastFault, IsLeastRow, broken};
ghost use Rattle.ddt_check.specs.Sorted.{AreEarlierKept, AreFound};

use crate::accepted::Accepted;
use crate::fault::{Fault, Rule};
use crate::rules::locators::wrong_locators;
use crate::rules::{sites, zones};
use crate::sorted_on_stack::{GroupRows, ZoneRows, duplicate_site, group_rows, zone_rows};
use ddt_path::Listed;
use ddt_register::Register;
use std::alloc::Global;

/// Accepts a register that keeps all rules. Else returns the register, with the broken rule of least number and the
/// least row that breaks it. All memory is freed before it returns; without free memory the check takes longer, and
/// has the same result.
pub fn check(register: Register) -> Result<Accepted, (Register, Fault)>
    ensures accepted { IfOk result (λ a. (a ≡ register) × IsAccepted register) }
    ensures refused { IfErr result (λ e. (e.0 ≡ register) × IsLeastFault register e.1.rule e.1.row) }
{
    let (register, alloc) = with_allocator(register);
    match find_fault(alloc, &register) {
        Some(fault) => Err((register, fault)),
        None => Ok(Accepted::of(register)),
    }
}

/// A register, and the allocator of its groups.
fn with_allocator(register: Register) -> (Register, Global)
    ensures { result.0 ≡ register }
{
    let Register {
        zones,
        sites,
        groups,
    } = register;
    let groups = groups.into_vec();
    let alloc = *groups.allocator();
    let groups = Listed::of(groups);
    let register = Register {
        zones,
        sites,
        groups,
    };
    (register, alloc)
}

/// What the passes find that several rules share. The row of a site outside is the least one only if the rules
/// DuplicateZone and BelowMapServer are kept.
#[derive(Clone, Copy)]
struct Found {
    zones: ZoneRows,
    groups: GroupRows,
}

/// The first fault, by the rules in the order of their numbers: the least row that breaks the first broken one.
fn find_fault(alloc: Global, register: &Register) -> Option<Fault>
    ensures { MatchOption result (IsAccepted register.now) (λ f. IsLeastFault register.now f.rule f.row) }
{
    let found = Found {
        zones: zone_rows(register),
        groups: group_rows(register),
    };
    for rule in Rule::ALL {
        if let Some(row) = first_row(alloc, register, found, rule) {
            return Some(Fault { rule, row });
        }
    }
    None
}

/// The least row that breaks a rule, if no rule before it is broken.
fn first_row(alloc: Global, register: &Register, found: Found, rule: Rule) -> Option<u32>
    ensures { AreFound register.now found → AreEarlierKept register.now rule
        → IsLeastRow (broken register.now rule) result }
{
    match rule {
        Rule::NoRoot => zones::no_root(register),
        Rule::DuplicateZone => found.zones.duplicate,
        Rule::DuplicateSite => duplicate_site(register),
        Rule::UnknownGroup => found.groups.unknown,
        Rule::Role => found.groups.role,
        Rule::Locators => wrong_locators(alloc, register.groups.as_slice()),
        Rule::BelowMapServer => found.zones.below,
        Rule::SiteOutside => found.zones.outside,
        Rule::TooManyEtrs => sites::too_many_etrs(register),
        Rule::DuplicateGroup => found.groups.duplicate,
    }
}
