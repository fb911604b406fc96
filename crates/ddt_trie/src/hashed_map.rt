//! A map from prefixes to values with a hash table beside its tree.

ghost use Rattle.std.proofs.Props.{props};
ghost use Rattle.std.specs.Prelude.{IfSome};
ghost use Rattle.std.specs.FinMap as map;
ghost use Rattle.ddt_trie.specs.PrefixMap.{path_cmp};
ghost use Rattle.ddt_trie.specs.Trie.{trie_content};
ghost use Rattle.ddt_trie.specs.HashTable.{IsTableOf};

use crate::hash_key::Duplicate;
use crate::hash_table::PrefixTable;
use crate::prefix_map::PrefixMap;
use crate::trie_map::TrieMap;
use ddt_path::{Prefix, Xeid};
use std::alloc::Global;

/// A map from prefixes that is filled once and then asked often: a tree, and a table that finds the longest prefix. The
/// table is dropped, and the tree finds the longest prefix from then on, when an entry is removed, when the table gets
/// no memory, or when the prefixes have more than eight lengths.
#[derive(Drop)]
pub struct HashedMap<V> {
    tree: TrieMap<V>,
    table: Option<PrefixTable<V>>,
    ghost same: { IfSome table (λ t. IsTableOf t (trie_content tree)) } by { Prim.hlevel props },
}

/// The table, if there is one, with the value of a prefix set. None if the table is dropped.
fn with<V: Drop>(table: Option<PrefixTable<V>>, prefix: Prefix, value: V) -> Option<PrefixTable<V>>
    ensures { (m : map.FinMap path_cmp V) → IfSome table (λ t. IsTableOf t m)
        → IfSome result (λ t. IsTableOf t (map.insert m prefix value)) }
{
    match table {
        Some(table) => table.with(prefix, value),
        None => None,
    }
}

impl<V: Duplicate> PrefixMap<V> for HashedMap<V> {
    ghost content = { λ m. trie_content m.tree };

    fn empty(alloc: Global) -> HashedMap<V> {
        HashedMap {
            tree: TrieMap::empty(alloc),
            table: Some(PrefixTable::new(alloc)),
        }
    }

    fn len(&self) -> usize {
        self.tree.len()
    }

    fn get(&self, prefix: Prefix) -> Option<&V> {
        self.tree.get(prefix)
    }

    fn longest(&self, x: Xeid) -> Option<(Prefix, &V)> {
        match &self.table {
            Some(table) => table.longest(x),
            None => self.tree.longest(x),
        }
    }

    fn free(&self, from: Prefix, x: Xeid) -> Option<Prefix> {
        self.tree.free(from, x)
    }

    fn free_below(&self, from: Prefix, x: Xeid) -> Option<Prefix> {
        self.tree.free_below(from, x)
    }

    fn insert(&mut self, prefix: Prefix, value: V) -> Result<Option<V>, (Prefix, V)> {
        let duplicate = value.duplicate();
        let before = self.tree.insert(prefix, value)?;
        self.table = with(self.table.take(), prefix, duplicate);
        Ok(before)
    }

    fn remove(&mut self, prefix: Prefix) -> Option<V> {
        self.table = None;
        self.tree.remove(prefix)
    }

    fn retain<F: Fn(&V) -> bool>(&mut self, keep: &F) {
        self.table = None;
        self.tree.retain(keep);
    }
}
