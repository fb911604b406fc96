//! The faults of organisations that are no tree.

ghost use Rattle.std.specs.Prelude.{◌≡◌, ◌==◌, [], ◌++◌, ℕ, true, map, length, IfOk, OnOk, slice_get};
ghost use Rattle.std.specs.List.{filter};
ghost use Rattle.std.specs.Ordering.{nat_cmp};
ghost use Rattle.std.specs.Cmp.Lexicographic.{slice_cmp};
ghost use Rattle.std.specs.BTreeSet.{contains};
ghost use Rattle.ddt_compile.specs.Lists.{list_at};
ghost use Rattle.ddt_organisations.specs.Meets.{seen, is_inside, is_run_by_some};
ghost use Rattle.ddt_organisations.specs.Found.{HaveRunners, AreDelegations};
ghost use Rattle.ddt_organisations.specs.Faults.{AreTreeFaults, MakeTree, IsFollowed, first_runs_root as first_runs_root_of, AreMore, IsToldOf, IsPairTold, AreSeamsTold, IsSeamFault, DoMeet, inside_at, nobody_at};

use crate::delegations::Delegations;
use crate::laws::{someone_is_in_charge, walks_end_in_charge};
use crate::organisation::Organisation;
use crate::organisations_by_group::{numbers_at, numbers_of, runners_of};
use crate::seam::{SeamReport, seam_lines};
use ddt_path::Name;
use std::alloc::{AllocError, Global};
use std::collections::{BTreeMap, BTreeSet};

/// A fault of organisations, which are then no tree. An organisation is given by its index in the list, from 0, and a
/// zone by its row in the organisation's register.
#[derive(Drop)]
pub enum TreeFault {
    /// The first organisation doesn't run the root, or there is none.
    RootNotRun,
    /// The zone of the row is inside one that the organisation delegates.
    Inside {
        organisation: usize,
        row: u32,
    },
    /// The organisation delegates the zone of the row, and nobody runs its group.
    NobodyRuns {
        organisation: usize,
        row: u32,
    },
    /// The organisation delegates a zone to the other, and the seam of their registers isn't good. It has the lines of
    /// the seam.
    BadSeam {
        organisation: usize,
        other: usize,
        lines: Vec<u8>,
    },
    /// The organisation delegates a zone to the other, and their registers have more than 65,535 rows together.
    TooManyRows {
        organisation: usize,
        other: usize,
    },
}

/// The faults of organisations, each of which runs some servers from its own register (RFC 8111, section 4). The first
/// one must run the root. The register of none may have a zone inside a zone that it delegates, and some organisation
/// must run each delegated zone. The seam of each two that meet so must be good. If there is no fault, following
/// referrals from the root ends in what the register in charge of the identifier assigns. Fails only if out of memory.
pub fn tree_faults(alloc: Global, all: &[Organisation]) -> Result<Vec<TreeFault>, AllocError>
    ensures faults { IfOk result (λ faults. AreTreeFaults all.now faults.items) }
    ensures tree { IfOk result (λ faults. faults.items ≡ [] → MakeTree all.now) }
    ensures followed { IfOk result (λ faults. faults.items ≡ [] → IsFollowed all.now) }
{
    walks_end_in_charge();
    someone_is_in_charge();
    all_faults(alloc, all)
}

/// The faults of organisations.
fn all_faults(alloc: Global, all: &[Organisation]) -> Result<Vec<TreeFault>, AllocError>
    ensures { IfOk result (λ faults. AreTreeFaults all.now faults.items) }
{
    let runners = runners_of(alloc, all)?;
    let mut faults = Vec::new(alloc);
    if !first_runs_root(all) {
        faults.push(TreeFault::RootNotRun)?;
    }
    for (number, organisation) in all.iter().enumerate() {
        push_faults(&mut faults, alloc, all, &runners, number, organisation)?;
    }
    Ok(faults)
}

/// Whether the first organisation runs the root.
fn first_runs_root(all: &[Organisation]) -> bool
    ensures { result ≡ first_runs_root_of all.now }
{
    match all.first() {
        Some(top) => top.runs_root(),
        None => false,
    }
}

/// Appends the faults of one organisation.
fn push_faults(
    faults: &mut Vec<TreeFault>,
    alloc: Global,
    all: &[Organisation],
    runners: &BTreeMap<Name, Vec<usize>>,
    number: usize,
    organisation: &Organisation,
) -> Result<(), AllocError>
    requires number { slice_get all.now number ≡ Some organisation.now }
    requires runners { HaveRunners all.now (list_at (slice_cmp nat_cmp) runners.now) }
    ensures more { OnOk result (AreMore all.now faults.old.items faults.new.items) }
    ensures told { OnOk result (IsToldOf all.now number organisation.now faults.new.items) }
{
    let delegations = Delegations::of(alloc, organisation)?;
    push_inside(faults, &delegations, number, organisation)?;
    push_not_run(faults, &delegations, runners, number)?;
    let others = numbers_of(alloc, runners, &delegations.zones)?;
    push_seams(faults, alloc, all, number, &others)?;
    Ok(())
}

/// Appends a fault for each zone of an organisation that is inside a zone that it delegates.
fn push_inside(
    faults: &mut Vec<TreeFault>,
    delegations: &Delegations,
    number: usize,
    organisation: &Organisation,
) -> Result<(), AllocError>
    requires { AreDelegations (seen organisation.now) delegations.now }
    ensures { OnOk result (faults.new.items ≡ faults.old.items
        ++ map (inside_at number) (filter (is_inside (seen organisation.now)) organisation.now.register.zones)) }
{
    for zone in organisation.zones() {
        if delegations.have_inside(zone) {
            faults.push(TreeFault::Inside {
                organisation: number,
                row: zone.row,
            })?;
        }
    }
    Ok(())
}

/// Appends a fault for each delegated zone whose group nobody runs.
fn push_not_run(
    faults: &mut Vec<TreeFault>,
    delegations: &Delegations,
    runners: &BTreeMap<Name, Vec<usize>>,
    number: usize,
) -> Result<(), AllocError>
    ensures { OnOk result (faults.new.items ≡ faults.old.items ++ map (nobody_at number)
        (filter (λ z. length (list_at (slice_cmp nat_cmp) runners.now z.group) == 0) delegations.now.zones.items)) }
{
    for zone in delegations.zones.as_slice() {
        if numbers_at(runners, zone.group).is_empty() {
            faults.push(TreeFault::NobodyRuns {
                organisation: number,
                row: zone.row,
            })?;
        }
    }
    Ok(())
}

/// Appends the faults of the seams of an organisation with others.
fn push_seams(
    faults: &mut Vec<TreeFault>,
    alloc: Global,
    all: &[Organisation],
    number: usize,
    others: &BTreeSet<usize>,
) -> Result<(), AllocError>
    requires { (m : ℕ) → contains nat_cmp others.now m ≡ true → DoMeet all.now number m }
    ensures more { OnOk result (AreMore all.now faults.old.items faults.new.items) }
    ensures told { OnOk result (AreSeamsTold all.now number (contains nat_cmp others.now) faults.new.items) }
{
    for other in others.iter() {
        push_seam(faults, alloc, all, number, *other)?;
    }
    Ok(())
}

/// Appends the fault of the seam of two organisations that meet, if it has one.
fn push_seam(
    faults: &mut Vec<TreeFault>,
    alloc: Global,
    all: &[Organisation],
    number: usize,
    other: usize,
) -> Result<(), AllocError>
    requires { DoMeet all.now number other }
    ensures more { OnOk result (AreMore all.now faults.old.items faults.new.items) }
    ensures told { OnOk result (IsPairTold all.now number other faults.new.items) }
{
    let found = seam_fault(alloc, all, number, other)?;
    match found {
        Some(fault) => {
            faults.push(fault)?;
            Ok(())
        }
        None => Ok(()),
    }
}

/// The fault of the seam of two organisations that meet, if it has one.
fn seam_fault(
    alloc: Global,
    all: &[Organisation],
    number: usize,
    other: usize,
) -> Result<Option<TreeFault>, AllocError>
    requires { DoMeet all.now number other }
    ensures { IfOk result (IsSeamFault all.now number other) }
{
    let Some(ours) = all.get(number) else {
        return Ok(None);
    };
    let Some(theirs) = all.get(other) else {
        return Ok(None);
    };
    let found = seam_lines(alloc, &theirs.groups, &ours.register, &theirs.register)?;
    let Some(SeamReport { text, is_good }) = found else {
        return Ok(Some(TreeFault::TooManyRows {
            organisation: number,
            other,
        }));
    };
    if is_good {
        return Ok(None);
    }
    Ok(Some(TreeFault::BadSeam {
        organisation: number,
        other,
        lines: text,
    }))
}
