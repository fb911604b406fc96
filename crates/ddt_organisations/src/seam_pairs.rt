//! The pairs of organisations that meet.

ghost use Rattle.std.specs.Prelude.{◌≡◌, ◌++◌, map, IfOk, OnOk};
ghost use Rattle.ddt_organisations.specs.Faults.{AreSeams, pair_with};

use crate::delegations::Delegations;
use crate::organisation::Organisation;
use crate::organisations_by_group::{numbers_of, runners_of};
use std::alloc::{AllocError, Global};
use std::collections::BTreeSet;

/// The seams of organisations: a pair of indices, from 0, of each organisation that delegates a zone and each that runs
/// the zone's servers (RFC 8111, section 4). Fails only if out of memory.
pub fn seams(alloc: Global, all: &[Organisation]) -> Result<Vec<(usize, usize)>, AllocError>
    ensures { IfOk result (λ pairs. AreSeams all.now pairs.items) }
{
    let runners = runners_of(alloc, all)?;
    let mut pairs = Vec::new(alloc);
    for (number, organisation) in all.iter().enumerate() {
        let delegations = Delegations::of(alloc, organisation)?;
        let others = numbers_of(alloc, &runners, &delegations.zones)?;
        push_pairs(&mut pairs, number, &others)?;
    }
    Ok(pairs)
}

/// Appends the pairs of a number with each of some others.
fn push_pairs(
    pairs: &mut Vec<(usize, usize)>,
    number: usize,
    others: &BTreeSet<usize>,
) -> Result<(), AllocError>
    ensures { OnOk result (pairs.new.items ≡ pairs.old.items ++ map (pair_with number) others.now.keys) }
{
    for other in others.iter() {
        pairs.push((number, *other))?;
    }
    Ok(())
}
