//! The maps of a register by which its warnings are found, so that each look-up takes one path or one search.

ghost use Rattle.std.specs.Prelude.{◌≡◌, IfOk};
ghost use Rattle.ddt_review.specs.Warnings.Index.{IsIndex, register_of, resolvers_of};

use crate::warnings::by_prefix::by_prefix;
use crate::warnings::children::{Children, children_of};
use crate::warnings::delegations::{Delegations, delegations_of};
use crate::warnings::neighbouring_sites::sites_in_order;
use crate::warnings::servers::{Address, addresses, is_on_loopback, named_groups, servers};
use crate::warnings::zone_tree::ZoneTree;
use ddt_check::Accepted;
use ddt_path::{Locator, Name};
use ddt_register::Site;
use ddt_trie::TrieMap;
use std::alloc::{AllocError, Global};
use std::collections::{BTreeMap, BTreeSet};

/// The maps of an accepted register.
#[derive(Drop)]
pub struct Index<'a> {
    pub tree: ZoneTree<'a>,
    /// Which zones have zones directly below them.
    pub children: Children,
    pub delegations: Delegations,
    pub sites: TrieMap<&'a Site>,
    /// The sites in the order of their prefixes.
    pub order: Vec<&'a Site>,
    /// The row of a group by each address that a group lists.
    pub servers: BTreeMap<Address, u32>,
    /// The names of the groups that zones name.
    pub named: BTreeSet<Name>,
    /// Whether all locators of all groups are loopback addresses.
    pub is_rig: bool,
    /// The addresses of Map-Resolvers.
    pub resolvers: &'a [Locator],
    pub known: BTreeSet<Address>,
}

impl<'a> Index<'a> {
    /// The index of an accepted register and of Map-Resolvers with these addresses. Fails only if out of memory.
    pub fn of(
        alloc: Global,
        accepted: &'a Accepted,
        resolvers: &'a [Locator],
    ) -> Result<Index<'a>, AllocError>
        ensures register { IfOk result (λ index. register_of index ≡ accepted.now) }
        ensures resolvers { IfOk result (λ index. resolvers_of index ≡ resolvers.now) }
        ensures index { IfOk result (IsIndex) }
    {
        let register = accepted.register();
        let tree = ZoneTree::of(alloc, accepted)?;
        let children = children_of(alloc, &tree)?;
        let delegations = delegations_of(alloc, &tree)?;
        Ok(Index {
            tree,
            children,
            delegations,
            sites: by_prefix(alloc, register.sites.as_slice())?,
            order: sites_in_order(alloc, register.sites.as_slice())?,
            servers: servers(alloc, register.groups.as_slice())?,
            named: named_groups(alloc, register.zones.as_slice())?,
            is_rig: is_on_loopback(register.groups.as_slice()),
            resolvers,
            known: addresses(alloc, resolvers)?,
        })
    }
}
