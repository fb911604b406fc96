//! The locators of one of a register's groups.

ghost use Rattle.std.specs.Prelude.{◌≡◌, [], unwrap_or};
ghost use Rattle.std.specs.Ordering.{nat_cmp};
ghost use Rattle.std.specs.Cmp.Lexicographic.{slice_cmp};
ghost use Rattle.std.specs.BTreeMap.{get};

use ddt_path::{LocatorSet, Name};
use std::collections::BTreeMap;

/// The locators of a group; none where no group has the name.
pub fn servers_of(servers: &BTreeMap<Name, LocatorSet>, group: Name) -> LocatorSet
    ensures { result ≡ unwrap_or (get (slice_cmp nat_cmp) servers.now group) [] }
{
    match servers.get(&group) {
        Some(servers) => *servers,
        None => LocatorSet::none(),
    }
}
