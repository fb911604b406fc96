//! The prefixes at which two registers differ. A walk through both stops at a prefix with none of these below it.

ghost use Rattle.std.specs.Prelude.{◌≡◌, ◌↔◌, ℕ, List, IsTrue, IfOk, find};
ghost use Rattle.ddt_path.specs.laws.Member.{IsIn};
ghost use Rattle.ddt_check.specs.Zones.{is_same_role};
ghost use Rattle.ddt_plan.specs.Fast.{AreInOrder, AreItemsOf};
ghost use Rattle.ddt_plan.specs.Differing.{AreDifferences, AreMarkedAll};

use crate::outcomes::are_same_servers;
use crate::sides::{Delegation, SiteState, SortedItems, item_of_prefix};
use ddt_check::Accepted;
use ddt_path::{Prefix, Prefixed};
use std::alloc::{AllocError, Global};

/// The part of a zone or a site that decides what its block is assigned.
pub trait Item: Prefixed + Copy {
    /// Whether both are the same value.
    fn is_same(&self, other: &Self) -> bool
        ensures { IsTrue result ↔ (self.now ≡ other.now) };
}

impl Item for Delegation {
    fn is_same(&self, other: &Delegation) -> bool {
        self.prefix == other.prefix
            && has_same_role(self, other)
            && are_same_servers(&self.servers, &other.servers)
    }
}

fn has_same_role(a: &Delegation, b: &Delegation) -> bool
    ensures { result ≡ is_same_role a.now.role b.now.role }
{
    a.role == b.role
}

impl Item for SiteState {
    fn is_same(&self, other: &SiteState) -> bool {
        self.prefix == other.prefix && self.is_registered == other.is_registered
    }
}

/// Whether both are None, or both are Some with the same value.
pub fn are_same<T: Item>(before: Option<T>, after: Option<T>) -> bool
    ensures { IsTrue result ↔ (before ≡ after) }
{
    match (before, after) {
        (None, None) => true,
        (Some(before), Some(after)) => before.is_same(&after),
        _ => false,
    }
}

/// The prefixes, in order, of the zones and sites that only one of two registers has, or that the other has with other
/// servers or in another state. A prefix may occur twice.
pub fn differences(
    alloc: Global,
    before: &Accepted,
    after: &Accepted,
    earlier: &SortedItems,
    later: &SortedItems,
) -> Result<Vec<Prefix>, AllocError>
    requires earlier { AreItemsOf before.now earlier.now }
    requires later { AreItemsOf after.now later.now }
    ensures { IfOk result (λ all. (q : List ℕ) → AreDifferences before.now after.now q all.items) }
{
    let (old_zones, new_zones) = (earlier.zones.as_slice(), later.zones.as_slice());
    let (old_sites, new_sites) = (earlier.sites.as_slice(), later.sites.as_slice());
    let zones_gone = with_missing(Vec::new(alloc), old_zones, new_zones)?;
    let zones = with_missing(zones_gone, new_zones, old_zones)?;
    let sites_gone = with_missing(zones, old_sites, new_sites)?;
    let mut all = with_missing(sites_gone, new_sites, old_sites)?;
    all.sort_unstable();
    Ok(all)
}

/// The known prefixes, and the prefix of each item that isn't among the others.
fn with_missing<T: Item>(
    known: Vec<Prefix>,
    items: &[T],
    others: &[T],
) -> Result<Vec<Prefix>, AllocError>
    requires { AreInOrder T.path others.now }
    ensures { IfOk result (λ all. ((p : _) → IsIn p known.items → IsIn p all.items)
        × AreMarkedAll T.path items.now others.now all.items) }
{
    let mut all = known;
    for item in items {
        if !has(others, item) {
            all.push(item.prefix())?;
        }
    }
    Ok(all)
}

/// Whether an item is among others.
fn has<T: Item>(others: &[T], item: &T) -> bool
    requires { AreInOrder T.path others.now }
    ensures { IsTrue result → IsIn item.now others.now }
{
    match item_of_prefix(others, item.prefix()) {
        Some(other) => other.is_same(item),
        None => false,
    }
}
