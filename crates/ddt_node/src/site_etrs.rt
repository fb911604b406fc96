//! Sets the ETRs of a site in each authority of a server, as a registration does (RFC 9301, section 5.6).

ghost use Rattle.std.specs.Prelude.{◌≡◌, IsTrue, map};
ghost use Rattle.std.specs.List.{list_all};
ghost use Rattle.ddt_config.specs.Entries.{prefixes_in};
ghost use Rattle.ddt_node.specs.Etrs.{content_with, authority_with, has_own_sites, holds_own_sites};
ghost use Rattle.ddt_node.specs.Places.{places as places_of, places_in as places_in_of};
ghost use Rattle.ddt_node.specs.Served.{content_of};

use crate::served_authority::{ServedAuthority, ServedContent};
use ddt_path::{Listed, LocatorSet, Prefix};
use ddt_trie::PrefixMap;
use std::alloc::Global;
use std::mem;

/// Sets the ETRs of the site of this prefix in the content of an authority, whose map of places is `places`. Allocates
/// nothing.
fn set_in_content<M: PrefixMap<u32>>(
    alloc: Global,
    content: &mut ServedContent,
    places: &M,
    prefix: Prefix,
    etrs: LocatorSet,
)
    requires indexed { M.content places.now ≡ places_of (prefixes_in (content_of content.old)) }
    requires own { IsTrue (has_own_sites (content_of content.old)) }
    ensures { content_of content.new ≡ content_with prefix etrs (content_of content.old) }
{
    if let ServedContent::Sites(sites) = content {
        match places.get(prefix) {
            Some(place) => {
                let mut items = mem::replace(sites, Listed::of(Vec::new(alloc))).into_vec();
                items[*place as usize].etrs = etrs;
                *sites = Listed::of(items);
            }
            None => {}
        }
    }
}

/// Sets the ETRs of the site of this prefix in each authority. Allocates nothing.
pub(crate) fn set_in_each<M: PrefixMap<u32>>(
    alloc: Global,
    authorities: &mut [ServedAuthority],
    contents: &[M],
    prefix: Prefix,
    etrs: LocatorSet,
)
    requires indexed { map M.content contents.now ≡ map places_in_of authorities.old }
    requires own { IsTrue (list_all holds_own_sites authorities.old) }
    ensures { authorities.new ≡ map (authority_with prefix etrs) authorities.old }
{
    for at in 0..authorities.len() {
        let authority = &mut authorities[at];
        set_in_content(alloc, &mut authority.content, &contents[at], prefix, etrs);
    }
}
