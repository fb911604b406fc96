//! What a caller derives from the clauses of `PrefixMap` alone, for any implementation.

ghost use Rattle.std.specs.Prelude.{◌≡◌, ◌≢◌, ◌<◌, false, IsTrue, IfOk, OnErr, IfErr};
ghost use Rattle.std.specs.FinMap as map;
ghost use Rattle.ddt_path.specs.Path.{xeid_path};
ghost use Rattle.ddt_path.specs.Covers.{covers, is_strictly_below};
ghost use Rattle.ddt_trie.specs.PrefixMap.{most_entries};

use ddt_path::{Prefix, Xeid};
use ddt_trie::PrefixMap;
use std::alloc::Global;

/// An empty map has no entry and no longest prefix, and the least specific hole is `from`.
#[tactic(auto, using(ddt_trie::specs::laws::Map::map_rules))]
fn nothing<M: PrefixMap<u32>>(
    alloc: Global,
    from: Prefix,
    x: Xeid,
) -> (usize, bool, bool, Option<Prefix>)
    requires { IsTrue (covers from (xeid_path x)) }
    ensures len { result.0 ≡ 0 }
    ensures value { result.1 ≡ false }
    ensures longest { result.2 ≡ false }
    ensures hole { result.3 ≡ Some from }
{
    let map = M::empty(alloc);
    (
        map.len(),
        map.get(from).is_some(),
        map.longest(x).is_some(),
        map.free(from, x),
    )
}

/// An inserted value is found. A refused one is returned, and the map is unchanged.
#[tactic(auto, using(ddt_trie::specs::laws::Map::map_rules))]
fn found_again<M: PrefixMap<u32>>(
    kept: &mut M,
    prefix: Prefix,
    value: u32,
) -> Result<Option<u32>, (Prefix, u32)>
    requires { map.len (M.content kept.old) < most_entries }
    ensures found { IfOk result (λ found. found ≡ Some value) }
    ensures refused { IfErr result (λ back. (back.0 ≡ prefix) × (back.1 ≡ value)) }
    ensures unchanged { OnErr result (M.content kept.new ≡ M.content kept.old) }
{
    kept.insert(prefix, value)?;
    Ok(kept.get(prefix).copied())
}

/// An insert doesn't change the value of any other prefix.
#[tactic(auto, using(ddt_trie::specs::laws::Map::map_rules))]
fn others_stay<M: PrefixMap<u32>>(
    kept: &mut M,
    prefix: Prefix,
    value: u32,
    other: Prefix,
) -> Result<Option<u32>, (Prefix, u32)>
    requires room { map.len (M.content kept.old) < most_entries }
    requires apart { prefix ≢ other }
    ensures { IfOk result (λ found. found ≡ map.get (M.content kept.old) other) }
{
    kept.insert(prefix, value)?;
    Ok(kept.get(other).copied())
}

/// A second value replaces the first, which is returned, and the length is unchanged.
#[tactic(auto, using(ddt_trie::specs::laws::Map::map_rules))]
fn replaced<M: PrefixMap<u32>>(
    alloc: Global,
    prefix: Prefix,
) -> Result<(Option<u32>, usize), (Prefix, u32)>
    ensures { IfOk result (λ answer. (answer.0 ≡ Some 1) × (answer.1 ≡ 1)) }
{
    let mut map = M::empty(alloc);
    map.insert(prefix, 1)?;
    match map.insert(prefix, 2) {
        Ok(before) => Ok((before, map.len())),
        Err(_refused) => Ok((None, 0)),
    }
}

/// Of two prefixes that cover an identifier, the inner one is the longest.
#[tactic(auto, using(ddt_trie::specs::laws::Map::map_rules))]
fn innermost<M: PrefixMap<u32>>(
    alloc: Global,
    outer: Prefix,
    inner: Prefix,
    x: Xeid,
) -> Result<Option<(Prefix, u32)>, (Prefix, u32)>
    requires nested { IsTrue (covers outer inner) }
    requires inside { IsTrue (covers inner (xeid_path x)) }
    ensures { IfOk result (λ longest. longest ≡ Some (inner, 2)) }
{
    let mut map = M::empty(alloc);
    map.insert(outer, 1)?;
    map.insert(inner, 2)?;
    match map.longest(x) {
        Some(found) => Ok(Some((found.0, *found.1))),
        None => Ok(None),
    }
}

/// There is no hole for an identifier that a prefix covers.
#[tactic(auto, using(ddt_trie::specs::laws::Map::map_rules))]
fn nothing_free<M: PrefixMap<u32>>(
    alloc: Global,
    from: Prefix,
    prefix: Prefix,
    x: Xeid,
) -> Result<Option<Prefix>, (Prefix, u32)>
    requires asked { IsTrue (covers from (xeid_path x)) }
    requires inside { IsTrue (covers prefix (xeid_path x)) }
    ensures { IfOk result (λ hole. hole ≡ None) }
{
    let mut map = M::empty(alloc);
    map.insert(prefix, 1)?;
    Ok(map.free(from, x))
}

/// The value of a prefix itself doesn't count for `free_below`.
#[tactic(auto, using(ddt_trie::specs::laws::Map::map_rules))]
fn free_below_itself<M: PrefixMap<u32>>(
    alloc: Global,
    from: Prefix,
    x: Xeid,
) -> Result<Option<Prefix>, (Prefix, u32)>
    requires { IsTrue (covers from (xeid_path x)) }
    ensures { IfOk result (λ hole. hole ≡ Some from) }
{
    let mut map = M::empty(alloc);
    map.insert(from, 1)?;
    Ok(map.free_below(from, x))
}

/// There is no hole below a prefix for an identifier that a prefix strictly below it covers.
#[tactic(auto, using(ddt_trie::specs::laws::Map::map_rules))]
fn nothing_free_below<M: PrefixMap<u32>>(
    alloc: Global,
    from: Prefix,
    prefix: Prefix,
    x: Xeid,
) -> Result<Option<Prefix>, (Prefix, u32)>
    requires asked { IsTrue (covers from (xeid_path x)) }
    requires below { IsTrue (is_strictly_below prefix from) }
    requires inside { IsTrue (covers prefix (xeid_path x)) }
    ensures { IfOk result (λ hole. hole ≡ None) }
{
    let mut map = M::empty(alloc);
    map.insert(prefix, 1)?;
    Ok(map.free_below(from, x))
}

/// A removed value is returned once.
#[tactic(auto, using(ddt_trie::specs::laws::Map::map_rules))]
fn removed<M: PrefixMap<u32>>(
    alloc: Global,
    prefix: Prefix,
) -> Result<(Option<u32>, Option<u32>, usize), (Prefix, u32)>
    ensures { IfOk result (λ answer. (answer.0 ≡ Some 7) × (answer.1 ≡ None) × (answer.2 ≡ 0)) }
{
    let mut map = M::empty(alloc);
    map.insert(prefix, 7)?;
    let first = map.remove(prefix);
    let second = map.remove(prefix);
    Ok((first, second, map.len()))
}

/// `retain` keeps the values that pass and drops the rest.
#[tactic(auto, using(ddt_trie::specs::laws::Map::map_rules))]
fn filtered<M: PrefixMap<u32>>(
    kept: &mut M,
    low: Prefix,
    high: Prefix,
) -> (Option<u32>, Option<u32>)
    requires low { map.get (M.content kept.old) low ≡ Some 1 }
    requires high { map.get (M.content kept.old) high ≡ Some 2 }
    ensures { (result.0 ≡ Some 1) × (result.1 ≡ None) }
{
    kept.retain(&|value: &u32| *value < 2);
    (kept.get(low).copied(), kept.get(high).copied())
}

/// `retain` that drops the only value leaves an empty map.
#[tactic(auto, using(ddt_trie::specs::laws::Map::map_rules))]
fn emptied<M: PrefixMap<u32>>(alloc: Global, prefix: Prefix) -> Result<usize, (Prefix, u32)>
    ensures { IfOk result (λ len. len ≡ 0) }
{
    let mut map = M::empty(alloc);
    map.insert(prefix, 2)?;
    map.retain(&|value: &u32| *value < 2);
    Ok(map.len())
}
