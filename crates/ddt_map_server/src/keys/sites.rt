//! The sites of a configuration, and their prefixes in order.

ghost use Rattle.std.specs.Prelude.{◌≡◌, map, IfOk, IsPermutation, IsSorted};
ghost use Rattle.std.specs.Cmp.Lexicographic.{slice_cmp};
ghost use Rattle.std.specs.Ordering.{nat_cmp};
ghost use Rattle.ddt_map_server.specs.Keys.KeyedSites.{sites_of as sites_of_content, sites_in as sites_in_order};

use ddt_config::{Authority, Content, SiteEntry};
use ddt_path::Prefix;
use std::alloc::{AllocError, Global};

/// The sites of an authority; one of a DDT node has none.
fn sites_of(content: &Content) -> &[SiteEntry]
    ensures { result.now ≡ sites_of_content content.now }
{
    match content {
        Content::Children(_children) => &[],
        Content::Sites(sites) => sites.as_slice(),
    }
}

/// The sites of all authorities, in their order. Fails only if out of memory.
pub fn sites_in(alloc: Global, authorities: &[Authority]) -> Result<Vec<SiteEntry>, AllocError>
    ensures { IfOk result (λ sites. sites.items ≡ sites_in_order authorities.now) }
{
    let mut sites = Vec::new(alloc);
    for authority in authorities {
        sites.extend_from_slice(sites_of(&authority.content))?;
    }
    Ok(sites)
}

/// The prefixes of sites, in the order of prefixes. Fails only if out of memory.
pub fn sorted_prefixes(alloc: Global, sites: &[SiteEntry]) -> Result<Vec<Prefix>, AllocError>
    ensures all { IfOk result (λ prefixes. IsPermutation (map (λ s. s.prefix) sites.now) prefixes.items) }
    ensures sorted { IfOk result (λ prefixes. IsSorted (slice_cmp nat_cmp) prefixes.items) }
{
    let mut prefixes = Vec::with_capacity(alloc, sites.len())?;
    for site in sites {
        prefixes.push(site.prefix)?;
    }
    prefixes.sort_unstable();
    Ok(prefixes)
}
