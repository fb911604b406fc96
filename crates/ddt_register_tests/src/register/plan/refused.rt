//! Memory is refused to walks: what was given till then is a front of all, and the next call gives all.
//!
//! `.ci/memory` runs each of these tests with each growth refused in turn.

use crate::comparison::{holds, same, twice};
use crate::registers::accepted as accepted_at_once;
use ddt_check::{Accepted, check};
use ddt_examples::registers::{CAMPUS, CAMPUS_GROWN, NESTED_SITES};
use ddt_path::{Locator, Name, Prefix, Xeid};
use ddt_plan::{
    Block, Change, GroupChange, ItemChanges, PlanFault, Reading, SortedPair, Versions, blocks,
    changes, group_changes, item_changes, serving_groups, versions_by_name,
};
use ddt_register::{ReadFault, Register, read_register};
use std::alloc::{AllocError, Global};
use std::process::Abort;
use std::test::Fail;

/// The register of a text, read again if memory was refused, which must be the only fault.
fn register(rt: &impl Abort, alloc: Global, text: &str) -> Result<Register, Fail> {
    match read_register(alloc, text.as_bytes()) {
        Ok(register) => Ok(register),
        Err(fault) => {
            same(rt, &fault, &ReadFault::Memory, &"the fault");
            Ok(read_register(alloc, text.as_bytes())?)
        },
    }
}

/// The same, accepted.
fn accepted(rt: &impl Abort, alloc: Global, text: &str) -> Result<Accepted, Fail> {
    match check(register(rt, alloc, text)?) {
        Ok(accepted) => Ok(accepted),
        Err(_refused) => Err("not accepted".into()),
    }
}

/// The prefix of everything.
fn everything() -> Prefix {
    let any = Xeid {
        iid: 0,
        address: Locator::V4(0),
    };
    Prefix::cut(any, 0)
}

/// How a walk into a list ends.
type End = Result<(), PlanFault<AllocError>>;

/// The blocks of a register that a list was given, and how that ended.
fn listed(alloc: Global, register: &Accepted) -> (Vec<Block>, End) {
    let mut list = Vec::new(alloc);
    let end = blocks(alloc, register, everything(), &mut list);
    (list, end)
}

/// The changes between two registers that a list was given, and how that ended.
fn changed(alloc: Global, old: &Accepted, new: &Accepted) -> (Vec<Change>, End) {
    let mut list = Vec::new(alloc);
    let end = changes(alloc, Reading::Exact, old, new, everything(), &mut list);
    (list, end)
}

/// All blocks; None where memory is refused.
fn all_listed(alloc: Global, register: &Accepted) -> Option<Vec<Block>> {
    let mut list = Vec::new(alloc);
    match blocks(alloc, register, everything(), &mut list) {
        Ok(()) => Some(list),
        Err(_refused) => None,
    }
}

/// All changes; None where memory is refused.
fn all_changed(alloc: Global, old: &Accepted, new: &Accepted) -> Option<Vec<Change>> {
    let mut list = Vec::new(alloc);
    match changes(alloc, Reading::Exact, old, new, everything(), &mut list) {
        Ok(()) => Some(list),
        Err(_refused) => None,
    }
}

/// All blocks, listed once more where memory is refused.
fn all_blocks(alloc: Global, register: &Accepted) -> Result<Vec<Block>, Fail> {
    match all_listed(alloc, register) {
        Some(list) => Ok(list),
        None => Ok(all_listed(alloc, register).ok_or("memory stays away")?),
    }
}

/// All changes, listed once more where memory is refused.
fn all_changes(alloc: Global, old: &Accepted, new: &Accepted) -> Result<Vec<Change>, Fail> {
    match all_changed(alloc, old, new) {
        Some(list) => Ok(list),
        None => Ok(all_changed(alloc, old, new).ok_or("memory stays away")?),
    }
}

/// What came first is a front of all, and all of it unless memory was refused.
fn is_front<T: PartialEq>(rt: &impl Abort, first: &(Vec<T>, End), all: &[T], count: usize) {
    let front = first.0.as_slice();
    same(rt, &all.len(), &count, &"all");
    same(
        rt,
        &(front.len() == all.len()),
        &first.1.is_ok(),
        &"the end",
    );
    holds(
        rt,
        front.iter().zip(all).all(|(one, other)| one == other),
        &"the front",
    );
}

#[test]
fn blocks_are_given_up_to_the_refusal(rt: HostRuntime) -> Result<(), Fail> {
    let register = accepted(&rt, rt.alloc(), NESTED_SITES)?;
    let first = listed(rt.alloc(), &register);
    let all = all_blocks(rt.alloc(), &register)?;
    is_front(&rt, &first, &all, 63);
    Ok(())
}

#[test]
fn changes_are_given_up_to_the_refusal(rt: HostRuntime) -> Result<(), Fail> {
    let old = accepted(&rt, rt.alloc(), CAMPUS)?;
    let new = accepted(&rt, rt.alloc(), NESTED_SITES)?;
    let first = changed(rt.alloc(), &old, &new);
    let all = all_changes(rt.alloc(), &old, &new)?;
    is_front(&rt, &first, &all, 3);
    Ok(())
}

/// The groups that change, asked once more where memory is refused.
fn all_groups(alloc: Global, old: &Accepted, new: &Accepted) -> Result<Vec<GroupChange>, Fail> {
    match group_changes(alloc, old, new) {
        Ok(list) => Ok(list),
        Err(_refused) => Ok(group_changes(alloc, old, new)?),
    }
}

#[test]
fn groups_are_told_after_a_refusal(rt: HostRuntime) -> Result<(), Fail> {
    let old = accepted(&rt, rt.alloc(), CAMPUS)?;
    let new = accepted(&rt, rt.alloc(), CAMPUS_GROWN)?;
    let all = all_groups(rt.alloc(), &old, &new)?;
    let mut names = all.iter().map(|change| change.name.as_bytes());
    same(&rt, &names.next(), &Some(b"far".as_slice()), &"the names");
    same(&rt, &names.next(), &Some(b"ten".as_slice()), &"the names");
    same(&rt, &names.next(), &None, &"the names");
    Ok(())
}

/// What differs, asked once more where memory is refused.
fn all_items(alloc: Global, old: &Accepted, new: &Accepted) -> Result<ItemChanges, Fail> {
    match item_changes(alloc, old, new) {
        Ok(changes) => Ok(changes),
        Err(_refused) => Ok(item_changes(alloc, old, new)?),
    }
}

#[test]
fn items_are_listed_after_a_refusal(rt: HostRuntime) -> Result<(), Fail> {
    let old = accepted(&rt, rt.alloc(), CAMPUS_GROWN)?;
    let new = accepted(&rt, rt.alloc(), NESTED_SITES)?;
    let all = all_items(rt.alloc(), &old, &new)?;
    let counts = (all.zones.len(), all.sites.len(), all.groups.len());
    same(&rt, &counts, &(1, 2, 1), &"what differs");
    Ok(())
}

/// The pair has both registers, and the groups and configurations of both are there.
fn compares(rt: &impl Abort, alloc: Global, old: &Accepted, new: &Accepted) -> Option<()> {
    let pair = SortedPair::of(alloc, old, new).ok()?;
    let (before, after) = (pair.before().counts(), pair.after().counts());
    let counts = (before.groups, after.groups);
    same(rt, &counts, &(3, 4), &"the groups");
    let groups = serving_groups(alloc, old, new).ok()?;
    let serving = groups.get(&everything()).map(|pair| pair.after);
    let root = serving??.group;
    same(rt, &root.as_bytes(), &b"root".as_slice(), &"the root");
    let versions = versions_by_name(alloc, old, new).ok()?;
    let far = versions.get(&Name::of(b"far")?);
    holds(rt, matches!(far, Some(Versions::After(_))), &"far");
    Some(())
}

fn pairs(rt: &impl Abort, alloc: Global) -> Option<()> {
    let old = accepted_at_once(alloc, CAMPUS)?;
    let new = accepted_at_once(alloc, CAMPUS_GROWN)?;
    compares(rt, alloc, &old, &new)
}

#[test]
fn two_registers_are_compared_whole(rt: HostRuntime) -> Result<(), Fail> {
    twice(|| pairs(&rt, rt.alloc()))
}
