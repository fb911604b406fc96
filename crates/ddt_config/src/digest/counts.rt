//! The numbers of authorities, children and sites in a configuration.

ghost use Rattle.std.specs.Prelude.{◌≡◌, length, min};
ghost use Rattle.ddt_config.specs.Table.{outline};
ghost use Rattle.ddt_config.specs.Digest.Counted.{most_count, child_count as child_count_of, site_count as site_count_of, counts_in};

use crate::{Content, ServerConfig};

/// The numbers of authorities, children and sites in a configuration. A count above 4,294,967,295 becomes that number.
#[derive(Clone, Copy, Debug, PartialEq, Eq)]
pub struct Counts {
    pub authorities: u32,
    /// The number of children of all authorities.
    pub children: u32,
    /// The number of sites of all authorities.
    pub sites: u32,
}

/// Counts the authorities, children and sites of a configuration.
pub fn counts_of(config: &ServerConfig) -> Counts
    ensures { result ≡ counts_in (outline config.now) }
{
    let authorities = config.authorities.as_slice();
    let mut children = 0u32;
    let mut sites = 0u32;
    for authority in authorities {
        children = children.saturating_add(child_count(&authority.content));
        sites = sites.saturating_add(site_count(&authority.content));
    }
    Counts {
        authorities: count(authorities.len()),
        children,
        sites,
    }
}

fn child_count(content: &Content) -> u32
    ensures { result ≡ min (child_count_of content.now) most_count }
{
    match content {
        Content::Children(children) => count(children.as_slice().len()),
        Content::Sites(_) => 0,
    }
}

fn site_count(content: &Content) -> u32
    ensures { result ≡ min (site_count_of content.now) most_count }
{
    match content {
        Content::Children(_) => 0,
        Content::Sites(sites) => count(sites.as_slice().len()),
    }
}

fn count(length: usize) -> u32
    ensures { result ≡ min length most_count }
{
    if length < u32::MAX as usize {
        length as u32
    } else {
        u32::MAX
    }
}
