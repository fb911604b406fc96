//! The delegations of a zone: the zones strictly below it with no zone between.

ghost use Rattle.std.specs.Prelude.{◌≡◌, [], IfOk, unwrap_or};
ghost use Rattle.std.specs.Ordering.{nat_cmp};
ghost use Rattle.std.specs.Cmp.Lexicographic.{slice_cmp};
ghost use Rattle.std.specs.BTreeMap.{get};
ghost use Rattle.ddt_compile.specs.GroupConfig.{children_of};
ghost use Rattle.ddt_compile.specs.Sorted.{AreSortedOf, HasLocatorsOf};

use crate::sorted_zones::zones_directly_below;
use ddt_check::Accepted;
use ddt_config::Child;
use ddt_path::{Listed, LocatorSet, Name};
use ddt_register::Zone;
use std::alloc::{AllocError, Global};
use std::collections::BTreeMap;

/// The children of a zone, in the order of their rows.
pub fn children_of_zone(
    alloc: Global,
    accepted: &Accepted,
    sets: &BTreeMap<Name, LocatorSet>,
    sorted: &[Zone],
    zone: &Zone,
) -> Result<Listed<Child>, AllocError>
    requires sets { HasLocatorsOf sets.now accepted.now }
    requires sorted { AreSortedOf accepted.now sorted.now }
    ensures { IfOk result (λ children. children ≡ children_of accepted.now zone.now) }
{
    let below = zones_directly_below(alloc, sorted, zone)?;
    let mut children = Vec::with_capacity(alloc, below.len())?;
    for delegated in &below {
        children.push(child(sets, delegated))?;
    }
    Ok(Listed::of(children))
}

/// The referral to a zone: its kind, and the locators of its group.
fn child(sets: &BTreeMap<Name, LocatorSet>, zone: &Zone) -> Child
    ensures prefix { result.prefix ≡ zone.now.prefix }
    ensures role { result.role ≡ zone.now.kind }
    ensures locators { result.locators ≡ unwrap_or (get (slice_cmp nat_cmp) sets.now zone.now.group) [] }
{
    Child {
        prefix: zone.prefix,
        role: zone.kind,
        locators: match sets.get(&zone.group) {
            Some(set) => *set,
            None => LocatorSet::none(),
        },
    }
}
