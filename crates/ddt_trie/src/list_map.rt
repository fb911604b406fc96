//! A map from prefixes to values with its entries in a list. Each call looks at all of them.

ghost use Rattle.std.specs.Prelude.{◌≡◌, ◌==◌, IsTrue, not};
ghost use Rattle.std.specs.List.{position, list_all};
ghost use Rattle.std.specs.Fn.{FnReturnsAt};
ghost use Rattle.ddt_path.specs.Path.{xeid_path};
ghost use Rattle.ddt_path.specs.Covers.{covers, overlaps, is_strictly_below, is_same_path};
ghost use Rattle.ddt_trie.specs.Entries.{have_own_keys, map_of, none_covers, none_covers_below, none_overlaps_below};

use crate::prefix_map::PrefixMap;
use ddt_path::{Prefix, Xeid, longest_match};
use std::alloc::Global;
use std::mem;

/// The simplest map from prefixes: a list of its entries, in the order in which they were inserted.
#[derive(Drop)]
pub struct ListMap<V> {
    entries: Vec<(Prefix, V)>,
    ghost distinct: { IsTrue (have_own_keys entries.items) },
}

/// The index of a prefix among the entries.
fn place_of<V>(entries: &[(Prefix, V)], prefix: Prefix) -> Option<usize>
    ensures { result ≡ position (λ e. is_same_path e.0 prefix) entries.now }
{
    entries.iter().position(|entry| entry.0 == prefix)
}

/// Whether the prefix overlaps none of the entries.
fn overlaps_none_of<V>(entries: &[(Prefix, V)], prefix: Prefix) -> bool
    ensures { result ≡ list_all (λ e. not (overlaps e.0 prefix)) entries.now }
{
    entries.iter().all(|entry| !entry.0.overlaps(prefix))
}

/// Whether the prefix covers the identifier, which is the same as whether the two overlap.
fn covers_alone(prefix: Prefix, x: Xeid) -> bool
    ensures covers { result ≡ covers prefix (xeid_path x) }
    ensures overlaps { result ≡ overlaps prefix (xeid_path x) }
{
    // The form shows the proof that no prefix is longer than the path of an identifier.
    let _form = prefix.form();
    prefix.covers_xeid(x)
}

/// Whether no entry covers the identifier, which is the same as whether it overlaps none of them.
fn covers_none<V>(entries: &[(Prefix, V)], x: Xeid) -> bool
    ensures covers { result ≡ none_covers entries.now (xeid_path x) }
    ensures overlaps { result ≡ list_all (λ e. not (overlaps e.0 (xeid_path x))) entries.now }
{
    entries.iter().all(|entry| !covers_alone(entry.0, x))
}

/// Whether the prefix overlaps none of the entries strictly below `from`.
fn overlaps_none_below<V>(entries: &[(Prefix, V)], from: Prefix, prefix: Prefix) -> bool
    ensures { result ≡ none_overlaps_below entries.now from prefix }
{
    entries.iter().all(|entry| !(entry.0.is_strictly_below(from) && entry.0.overlaps(prefix)))
}

/// Whether no entry strictly below `from` covers the identifier, which is the same as whether it overlaps none of them.
fn covers_none_below<V>(entries: &[(Prefix, V)], from: Prefix, x: Xeid) -> bool
    ensures covers { result ≡ none_covers_below entries.now from (xeid_path x) }
    ensures overlaps { result ≡ none_overlaps_below entries.now from (xeid_path x) }
{
    entries.iter().all(|entry| !(entry.0.is_strictly_below(from) && covers_alone(entry.0, x)))
}

impl<V: Drop> PrefixMap<V> for ListMap<V> {
    ghost content = { λ m. map_of m.entries.items };

    fn empty(alloc: Global) -> ListMap<V> {
        ListMap {
            entries: Vec::new(alloc),
        }
    }

    fn len(&self) -> usize {
        self.entries.len()
    }

    fn get(&self, prefix: Prefix) -> Option<&V> {
        let at = place_of(&self.entries, prefix)?;
        Some(&self.entries[at].1)
    }

    fn longest(&self, x: Xeid) -> Option<(Prefix, &V)> {
        let (prefix, value) = longest_match(&self.entries, Prefix::host(x))?;
        Some((*prefix, value))
    }

    fn free(&self, from: Prefix, x: Xeid) -> Option<Prefix> {
        for len in from.len()..x.path_len() {
            let part = Prefix::cut(x, len);
            if overlaps_none_of(&self.entries, part) {
                return Some(part);
            }
        }
        covers_none(&self.entries, x).then_some(Prefix::host(x))
    }

    fn free_below(&self, from: Prefix, x: Xeid) -> Option<Prefix> {
        for len in from.len()..x.path_len() {
            let front = Prefix::cut(x, len);
            if overlaps_none_below(&self.entries, from, front) {
                return Some(front);
            }
        }
        covers_none_below(&self.entries, from, x).then_some(Prefix::host(x))
    }

    fn insert(&mut self, prefix: Prefix, value: V) -> Result<Option<V>, (Prefix, V)> {
        match place_of(&self.entries, prefix) {
            Some(at) => Ok(Some(mem::replace(&mut self.entries[at].1, value))),
            None => match self.entries.push((prefix, value)) {
                Ok(()) => Ok(None),
                Err(refused) => Err(refused.value),
            },
        }
    }

    fn remove(&mut self, prefix: Prefix) -> Option<V> {
        let at = place_of(&self.entries, prefix)?;
        Some(self.entries.remove(at).1)
    }

    fn retain<F: Fn(&V) -> bool>(&mut self, keep: &F) {
        self.entries.retain(
            |entry|
                requires { F.IsAlwaysCallable keep.now }
                ensures { FnReturnsAt F.Fn keep.entry.now entry.now.1 result }
            { keep(&entry.1) },
        );
    }
}
