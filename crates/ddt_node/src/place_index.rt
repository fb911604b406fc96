//! The index of a server: maps from the prefix of each authority, child and site to its place in the configuration.

ghost use Rattle.std.specs.Prelude.{◌≡◌, ◌+◌, ◌<◌, [], length, map, nat_lt, IfOk, IsOk};
ghost use Rattle.std.specs.List.{sum_by};
ghost use Rattle.ddt_trie.specs.PrefixMap.{most_entries};
ghost use Rattle.ddt_config.specs.Table.{outline};
ghost use Rattle.ddt_config.specs.Entries.{prefixes_in, count_in as count_in_of, entry_count};
ghost use Rattle.ddt_node.specs.Places.{places as places_of, places_in as places_in_of, AreIndexed};
ghost use Rattle.ddt_node.specs.Served.{content_of};

use crate::served_authority::{ServedAuthority, ServedContent};
use ddt_config::{Content, ServerConfig};
use ddt_path::Prefixed;
use ddt_trie::{MOST_ENTRIES, PrefixMap};
use std::alloc::{AllocError, Global};

/// A map from the prefix of each item to its place; of two items of one prefix, to that of the first. There must be
/// fewer than 1,048,576 items. Fails only if out of memory; no items need none.
pub fn places<T: Prefixed, M: PrefixMap<u32>>(alloc: Global, items: &[T]) -> Result<M, AllocError>
    requires { length items.now < most_entries }
    ensures places { IfOk result (λ m. M.content m ≡ places_of (map T.path items.now)) }
    ensures none { items.now ≡ [] → IsOk result }
{
    let mut places = M::empty(alloc);
    // From last to first, so that the first of two items of one prefix is found.
    for at in (0..items.len()).rev() {
        if places.insert(items[at].prefix(), at as u32).is_err() {
            return Err(AllocError);
        }
    }
    Ok(places)
}

/// A map from the prefix of each child or site of an authority to its place.
fn places_in<M: PrefixMap<u32>>(alloc: Global, content: &ServedContent) -> Result<M, AllocError>
    requires { length (prefixes_in (content_of content.now)) < most_entries }
    ensures { IfOk result (λ m. M.content m ≡ places_of (prefixes_in (content_of content.now))) }
{
    match content {
        ServedContent::Children(children) => places(alloc, children.prefixes()),
        ServedContent::Sites(sites) => places(alloc, sites.as_slice()),
    }
}

/// For each authority the map of its children or sites to their places.
fn contents<M: PrefixMap<u32>>(
    alloc: Global,
    authorities: &[ServedAuthority],
) -> Result<Vec<M>, AllocError>
    requires { sum_by count_in_of authorities.now < most_entries }
    ensures contents { IfOk result (λ maps. map M.content maps.items ≡ map places_in_of authorities.now) }
    ensures none { authorities.now ≡ [] → IsOk result }
{
    let mut contents = Vec::new(alloc);
    for authority in authorities {
        contents.push(places_in(alloc, &authority.content)?)?;
    }
    Ok(contents)
}

/// The maps by which a server finds its authorities, children and sites.
#[derive(Drop)]
pub struct PlaceIndex<M> {
    /// From the prefix of each authority to its place.
    pub authorities: M,
    /// For each authority, from the prefix of each of its children or sites to its place.
    pub contents: Vec<M>,
}

/// The index of these authorities.
pub fn index<M: PrefixMap<u32>>(
    alloc: Global,
    authorities: &[ServedAuthority],
) -> Result<PlaceIndex<M>, AllocError>
    requires { length authorities.now + sum_by count_in_of authorities.now < most_entries }
    ensures indexed { IfOk result (λ i. AreIndexed authorities.now
        (M.content i.authorities) (map M.content i.contents.items)) }
    ensures none { authorities.now ≡ [] → IsOk result }
{
    Ok(PlaceIndex {
        authorities: places(alloc, authorities)?,
        contents: contents(alloc, authorities)?,
    })
}

fn count_in(content: &Content) -> usize
    ensures { result ≡ length (prefixes_in content.now) }
{
    match content {
        Content::Children(children) => children.as_slice().len(),
        Content::Sites(sites) => sites.as_slice().len(),
    }
}

/// Whether a server of this configuration can be built: its authorities, children and sites are fewer than 1,048,576 in
/// all.
pub fn has_room_for(config: &ServerConfig) -> bool
    ensures { result ≡ nat_lt (entry_count (outline config.now)) most_entries }
{
    let authorities = config.authorities.as_slice();
    let mut count = authorities.len();
    for authority in authorities {
        count = count.saturating_add(count_in(&authority.content));
    }
    count < MOST_ENTRIES
}
