//! Calls on a prefix map of numbers, each made and judged in a function of its own; and a full trie, which is dropped.

use crate::comparison::same;
use ddt_path::{Locator, Prefix, Xeid};
use ddt_trie::{MOST_ENTRIES, PrefixMap, TrieMap};
use std::alloc::Global;
use std::process::Abort;

pub const TEN_ONE: u32 = 0x0a01_0000;

pub const DOCUMENTATION: u128 = 0x2001_0db8_0000_0000_0000_0000_0000_0000;

pub fn v6(address: u128) -> Xeid {
    Xeid {
        iid: 0,
        address: Locator::V6(address),
    }
}

/// Puts a value at a prefix.
pub fn put<M: PrefixMap<u32>>(
    rt: &impl Abort,
    map: &mut M,
    prefix: Prefix,
    value: u32,
) -> Result<Option<u32>, (Prefix, u32)> {
    assert!(rt; map.len() < MOST_ENTRIES);
    map.insert(prefix, value)
}

/// The value of a prefix.
pub fn got<M: PrefixMap<u32>>(map: &M, prefix: Prefix) -> Option<u32> {
    map.get(prefix).copied()
}

/// The longest prefix that covers the identifier, with its value.
pub fn longest<M: PrefixMap<u32>>(map: &M, x: Xeid) -> Option<(Prefix, u32)> {
    match map.longest(x) {
        Some((prefix, value)) => Some((prefix, *value)),
        None => None,
    }
}

/// The least specific hole for the identifier, of `from` and the prefixes inside it.
pub fn hole_in<M: PrefixMap<u32>>(
    rt: &impl Abort,
    map: &M,
    from: Prefix,
    x: Xeid,
) -> Option<Prefix> {
    assert!(rt; from.covers_xeid(x));
    map.free(from, x)
}

/// The least specific hole for the identifier.
pub fn hole<M: PrefixMap<u32>>(rt: &impl Abort, map: &M, x: Xeid) -> Option<Prefix> {
    hole_in(rt, map, Prefix::cut(x, 0), x)
}

pub fn puts<M: PrefixMap<u32>>(
    rt: &impl Abort,
    map: &mut M,
    prefix: Prefix,
    value: u32,
    before: Option<u32>,
) {
    same(rt, &put(rt, map, prefix, value), &Ok(before), &value);
}

pub fn counts<M: PrefixMap<u32>>(rt: &impl Abort, map: &M, count: usize) {
    same(rt, &map.len(), &count, &"the length");
}

/// The value at a prefix is this one, or there is none.
pub fn gets<M: PrefixMap<u32>>(rt: &impl Abort, map: &M, prefix: Prefix, value: Option<u32>) {
    same(rt, &got(map, prefix), &value, &prefix);
}

/// What is found for an identifier, and its value, are these.
pub fn finds_longest<M: PrefixMap<u32>>(
    rt: &impl Abort,
    map: &M,
    x: Xeid,
    entry: Option<(Prefix, u32)>,
) {
    same(rt, &longest(map, x), &entry, &x);
}

/// `len` consecutive identifiers: the last is found, and the map goes as a whole.
pub fn filled<M: PrefixMap<u32>>(alloc: Global, rt: &impl Abort, len: u32) {
    let mut map = M::empty(alloc);
    for n in 0..len {
        let host = Prefix::host(v6(DOCUMENTATION + n as u128));
        puts(rt, &mut map, host, n, None);
    }
    counts(rt, &map, len as usize);
    finds_longest(rt, &map, v6(DOCUMENTATION + len as u128), None);
    finds_longest(
        rt,
        &map,
        v6(DOCUMENTATION),
        Some((Prefix::host(v6(DOCUMENTATION)), 0)),
    );
}

/// The first digits of an identifier.
pub fn front(rt: &impl Abort, x: Xeid, len: u8) -> Prefix {
    assert!(rt; len <= x.path_len());
    Prefix::cut(x, len)
}

#[test]
fn trie_map_is_filled_and_dropped(rt: HostRuntime) {
    filled::<TrieMap<u32>>(rt.alloc(), &rt, 65_535);
}
