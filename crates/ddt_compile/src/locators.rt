//! The locators of groups and sites, as the sets that configurations hold.

ghost use Rattle.std.specs.Prelude.{IfOk};
ghost use Rattle.ddt_compile.specs.Sorted.{HasLocatorsOf};

use ddt_check::Accepted;
use ddt_path::{LocatorSet, Name};
use std::alloc::{AllocError, Global};
use std::collections::BTreeMap;

/// The locators of each group, by its name: at most 8, in the order of its row. Fails only if out of memory.
pub fn locators_by_name(
    alloc: Global,
    accepted: &Accepted,
) -> Result<BTreeMap<Name, LocatorSet>, AllocError>
    ensures { IfOk result (λ sets. HasLocatorsOf sets accepted.now) }
{
    let mut sets = BTreeMap::new(alloc);
    for group in accepted.register().groups.as_slice() {
        if !sets.contains_key(&group.name) {
            sets.insert(group.name, LocatorSet::of_few(group.locators.as_slice()))?;
        }
    }
    Ok(sets)
}
