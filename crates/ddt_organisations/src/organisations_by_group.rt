//! A map from the name of a group to the organisations that run it, by their indices from 0.

ghost use Rattle.std.specs.Prelude.{◌≡◌, ◌==◌, ◌∷◌, ◌++◌, ◌||◌, [], ℕ, List, false, IfOk, OnOk};
ghost use Rattle.std.specs.List.{list_any};
ghost use Rattle.std.specs.Ordering.{nat_cmp, eq_by_cmp};
ghost use Rattle.std.specs.Cmp.Lexicographic.{slice_cmp};
ghost use Rattle.std.specs.BTreeSet.{contains};
ghost use Rattle.ddt_compile.specs.Lists.{list_at};
ghost use Rattle.ddt_organisations.specs.Meets.{seen};
ghost use Rattle.ddt_organisations.specs.Found.{HaveRunners, AreRunnersAnd};

use crate::organisation::Organisation;
use ddt_path::Name;
use ddt_register::Zone;
use std::alloc::{AllocError, Global};
use std::collections::{BTreeMap, BTreeSet};

/// The indices of the organisations that run each group, by its name. Fails only if out of memory.
pub fn runners_of(
    alloc: Global,
    all: &[Organisation],
) -> Result<BTreeMap<Name, Vec<usize>>, AllocError>
    ensures { IfOk result (λ runners. HaveRunners all.now (list_at (slice_cmp nat_cmp) runners)) }
{
    let mut runners = BTreeMap::new(alloc);
    for (number, organisation) in all.iter().enumerate() {
        add_groups(&mut runners, alloc, organisation, number)?;
    }
    Ok(runners)
}

/// Adds the index of an organisation at each group that it runs. Fails only if out of memory.
fn add_groups(
    runners: &mut BTreeMap<Name, Vec<usize>>,
    alloc: Global,
    organisation: &Organisation,
    number: usize,
) -> Result<(), AllocError>
    ensures { OnOk result (AreRunnersAnd (list_at (slice_cmp nat_cmp) runners.old) (seen organisation.now) number
        (list_at (slice_cmp nat_cmp) runners.new)) }
{
    for name in organisation.groups.iter() {
        add(runners, alloc, *name, number)?;
    }
    Ok(())
}

/// Adds an index at a name. Fails only if out of memory.
fn add(
    runners: &mut BTreeMap<Name, Vec<usize>>,
    alloc: Global,
    name: Name,
    number: usize,
) -> Result<(), AllocError>
    ensures here { OnOk result (list_at (slice_cmp nat_cmp) runners.new name
        ≡ list_at (slice_cmp nat_cmp) runners.old name ++ number ∷ []) }
    ensures elsewhere { OnOk result ((k : List ℕ) → eq_by_cmp (slice_cmp nat_cmp) name k ≡ false
        → list_at (slice_cmp nat_cmp) runners.new k ≡ list_at (slice_cmp nat_cmp) runners.old k) }
{
    runners
        .entry(name)?
        .or_insert(Vec::new(alloc))
        .push(number)?;
    Ok(())
}

/// The indices at a name.
pub fn numbers_at(runners: &BTreeMap<Name, Vec<usize>>, name: Name) -> &[usize]
    ensures { result.now ≡ list_at (slice_cmp nat_cmp) runners.now name }
{
    match runners.get(&name) {
        Some(numbers) => numbers.as_slice(),
        None => &[],
    }
}

/// The indices of the organisations that run the group of one of these zones. Fails only if out of memory.
pub fn numbers_of(
    alloc: Global,
    runners: &BTreeMap<Name, Vec<usize>>,
    zones: &[Zone],
) -> Result<BTreeSet<usize>, AllocError>
    ensures { IfOk result (λ found. (n : ℕ) → contains nat_cmp found n
        ≡ list_any (λ z. list_any (λ k. k == n) (list_at (slice_cmp nat_cmp) runners.now z.group)) zones.now) }
{
    let mut found = BTreeSet::new(alloc);
    for zone in zones {
        insert_all(&mut found, numbers_at(runners, zone.group))?;
    }
    Ok(found)
}

/// Inserts indices into a set. Fails only if out of memory.
fn insert_all(found: &mut BTreeSet<usize>, numbers: &[usize]) -> Result<(), AllocError>
    ensures { OnOk result ((n : ℕ) → contains nat_cmp found.new n
        ≡ (contains nat_cmp found.old n || list_any (λ k. k == n) numbers.now)) }
{
    for number in numbers {
        found.insert(*number)?;
    }
    Ok(())
}
