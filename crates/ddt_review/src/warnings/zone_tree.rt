//! The zones of an accepted register as a tree: the zone of a prefix, and the zone that delegates another.

ghost use Rattle.std.specs.Prelude.{◌≡◌, IfOk};
ghost use Rattle.std.specs.Option.{option_copied};
ghost use Rattle.ddt_check.specs.Zones.{zone_of as zone_of_path};
ghost use Rattle.ddt_review.specs.Warnings.Found.{IsTree};
ghost use Rattle.ddt_review.specs.Warnings.Warnings.{zone_above as zone_above_of};

use crate::warnings::by_prefix::{by_prefix, longest};
use ddt_check::Accepted;
use ddt_path::Prefix;
use ddt_register::{Register, Zone};
use ddt_trie::TrieMap;
use std::alloc::{AllocError, Global};

/// The zones of an accepted register, by their prefixes.
#[derive(Drop)]
pub struct ZoneTree<'a> {
    pub register: &'a Register,
    by_prefix: TrieMap<&'a Zone>,
}

impl<'a> ZoneTree<'a> {
    /// The tree of a register. Fails only if out of memory.
    pub fn of(alloc: Global, accepted: &'a Accepted) -> Result<ZoneTree<'a>, AllocError>
        ensures register { IfOk result (λ tree. tree.register.now ≡ accepted.now) }
        ensures kept { IfOk result IsTree }
    {
        let register = accepted.register();
        let by_prefix = by_prefix(alloc, register.zones.as_slice())?;
        Ok(ZoneTree {
            register,
            by_prefix,
        })
    }

    /// The longest zone that covers a prefix.
    pub fn zone_of(&self, prefix: Prefix) -> Option<&'a Zone>
        requires { IsTree self.now }
        ensures { option_copied result ≡ zone_of_path self.now.register.now prefix }
    {
        longest(&self.by_prefix, prefix)
    }

    /// The zone directly above a zone, which delegates it; none above the root.
    pub fn zone_above(&self, zone: &Zone) -> Option<&'a Zone>
        requires { IsTree self.now }
        ensures { option_copied result ≡ zone_above_of self.now.register.now zone.now }
    {
        let len = zone.prefix.len();
        if len == 0 {
            return None;
        }
        longest(&self.by_prefix, zone.prefix.front(len - 1))
    }
}
