//! The sites of a register in the order of their prefixes, and the neighbours of a site in it.

ghost use Rattle.std.specs.Prelude.{◌≡◌, IfOk, MatchOption, map, IsPermutation};
ghost use Rattle.ddt_register.specs.declared.register.Register.{Register as ARegister};
ghost use Rattle.ddt_review.specs.Warnings.Order.{AreSitesInOrder};
ghost use Rattle.ddt_check.specs.Rules.{IsAccepted};
ghost use Rattle.ddt_review.specs.Warnings.Found.{AreListedInOrder, AreNeighbours, HasNone};
ghost use Rattle.std.specs.List.{Contains};

use ddt_register::Site;
use std::alloc::{AllocError, Global};

/// The sites in the order of their prefixes. Fails only if out of memory.
pub fn sites_in_order(alloc: Global, sites: &[Site]) -> Result<Vec<&Site>, AllocError>
    ensures same { IfOk result (λ order. IsPermutation sites.now (map (λ s. s.now) order.items)) }
    ensures order { IfOk result (λ order. AreSitesInOrder (map (λ s. s.now) order.items)) }
{
    let mut order = refs(alloc, sites)?;
    order.sort_unstable_by_key(|s| (s.prefix, s.row));
    Ok(order)
}

fn refs(alloc: Global, sites: &[Site]) -> Result<Vec<&Site>, AllocError>
    ensures { IfOk result (λ order. map (λ s. s.now) order.items ≡ sites.now) }
{
    sites.iter().collect(alloc)
}

/// The sites just before and just after a site; None if one of them is missing.
pub fn neighbours<'a>(order: &[&'a Site], site: &Site) -> Option<(&'a Site, &'a Site)>
    ensures { (r : ARegister) → IsAccepted r → AreListedInOrder r order.now → Contains r.sites site.now
        → MatchOption result (HasNone r site.now) (λ found. AreNeighbours r site.now found.0.now found.1.now) }
{
    let at = order.partition_point(|s| s.prefix < site.prefix);
    if at == 0 || at + 1 >= order.len() {
        return None;
    }
    Some((order[at - 1], order[at + 1]))
}
