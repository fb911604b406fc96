//! The children of an authority of a server: the prefix of each, and the place of its referral set (RFC 8111, section
//! 6.2).

ghost use Rattle.std.specs.Prelude.{◌≡◌, ◌+◌, ◌<◌, ◌≤◌, ℕ, Some, IsTrue, [], length, map, slice_get, IfOk, IfSome, IsOk};
ghost use Rattle.ddt_trie.specs.PrefixMap.{most_entries};
ghost use Rattle.ddt_config.specs.declared.child.Child.{Child as AChild};
ghost use Rattle.ddt_node.specs.declared.delegations.ReferralSet.{ReferralSet as ASet};
ghost use Rattle.ddt_node.specs.Delegations.{set_of};

use ddt_config::Child;
use ddt_path::{Locator, LocatorSet, Prefix, Role};
use std::alloc::{AllocError, Global};
use std::collections::HashMap;
use std::marker::Model;

/// What a referral to a child has beside its prefix.
#[derive(Clone, Copy, Debug)]
pub struct ReferralSet {
    /// The role of the servers.
    pub role: Role,
    /// Their locators.
    pub locators: LocatorSet,
}

/// The children of an authority. Children that are delegated to the same servers share a referral set. So a child takes
/// 28 bytes, and the memory that a server reads for most requests is small. Contracts see the children.
#[derive(Drop)]
pub struct Delegations {
    sets: Vec<ReferralSet>,
    prefixes: Vec<Prefix>,
    /// For each child the index of its referral set.
    places: Vec<u32>,
}

impl Model for Delegations {
    ghost use Rattle.std.specs.Prelude.{List};
    ghost use Rattle.ddt_config.specs.declared.child.Child.{Child as ChildValue};
    ghost use Rattle.ddt_node.specs.Delegations.{children_of, AreKept};

    ghost Value = { List ChildValue };

    ghost view = { λ d. children_of d.sets.items d.prefixes.items d.places.items };

    ghost invariant = { λ d. AreKept d.sets.items d.prefixes.items d.places.items };
}

impl Delegations {
    /// The children of an authority. There must be fewer than 1,048,576. Fails only if out of memory; no children need
    /// none.
    pub fn of(alloc: Global, children: &[Child]) -> Result<Delegations, AllocError>
        requires { length children.now < most_entries }
        ensures kept { IfOk result (λ d. d ≡ children.now) }
        ensures none { children.now ≡ [] → IsOk result }
    {
        let mut sets = Vec::new(alloc);
        let mut prefixes = Vec::with_capacity(alloc, children.len())?;
        let mut places = Vec::with_capacity(alloc, children.len())?;
        // From a first locator to the index of the last set that has it.
        let mut latest = HashMap::new(alloc);
        for child in children {
            let set = ReferralSet {
                role: child.role,
                locators: child.locators,
            };
            prefixes.push(child.prefix)?;
            places.push(keep(&mut sets, &mut latest, set)?)?;
        }
        Ok(Delegations {
            sets,
            prefixes,
            places,
        })
    }

    /// The prefixes of the children.
    pub fn prefixes(&self) -> &[Prefix]
        ensures { result.now ≡ map (λ c. c.prefix) self.now }
    {
        self.prefixes.as_slice()
    }

    /// The referral set of the child at an index.
    pub fn set_at(&self, place: usize) -> &ReferralSet
        requires { place < length self.now }
        ensures { (c : AChild) → slice_get self.now place ≡ Some c → result.now ≡ set_of c }
    {
        &self.sets[self.places[place] as usize]
    }
}

/// The index of a set among `sets`, to which it is appended if it isn't found. Fails only if out of memory.
fn keep(
    sets: &mut Vec<ReferralSet>,
    latest: &mut HashMap<Locator, u32>,
    set: ReferralSet,
) -> Result<u32, AllocError>
    requires { length sets.old.items < most_entries }
    ensures kept { IfOk result (λ at. slice_get sets.new.items at ≡ Some set) }
    ensures others { (at : ℕ) (other : ASet) → slice_get sets.old.items at ≡ Some other
        → slice_get sets.new.items at ≡ Some other }
    ensures more { length sets.new.items ≤ length sets.old.items + 1 }
{
    let first = set.locators.as_slice().first().copied();
    if let Some(locator) = first {
        if let Some(at) = found(sets.as_slice(), latest, locator, &set) {
            return Ok(at);
        }
    }
    let at = sets.len() as u32;
    sets.push(set)?;
    if let Some(locator) = first {
        latest.insert(locator, at)?;
    }
    Ok(at)
}

/// The index of a set, if it is equal to the last one with this first locator.
fn found(
    sets: &[ReferralSet],
    latest: &HashMap<Locator, u32>,
    first: Locator,
    set: &ReferralSet,
) -> Option<u32>
    ensures { IfSome result (λ at. slice_get sets.now at ≡ Some set.now) }
{
    let at = *latest.get(&first)?;
    let other = sets.get(at as usize)?;
    is_same(other, set).then_some(at)
}

fn is_same(a: &ReferralSet, b: &ReferralSet) -> bool
    ensures { IsTrue result → a.now ≡ b.now }
{
    a.role == b.role && a.locators.as_slice() == b.locators.as_slice()
}
