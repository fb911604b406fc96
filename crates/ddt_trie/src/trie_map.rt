//! A map from prefixes to values with its entries in a binary tree, one level for each digit. Each call but `retain`
//! goes down one path. `free` and `free_below` find the least specific hole.

ghost use Rattle.std.specs.Prelude.{◌≡◌, IsTrue, []};
ghost use Rattle.ddt_trie.specs.Tree.{content_of, count, is_pruned, is_rooted, HasPaths};

use crate::prefix_map::PrefixMap;
use crate::tree::Tree;
use ddt_path::{Prefix, Xeid};
use std::alloc::Global;

/// A map from prefixes for many entries, in a binary tree. Each node has an entry or has one below it; the prefix of a
/// leaf begins with the digits above it; `len` is the number of entries. Each key is the path of a prefix, so no path
/// is longer than 161 digits.
#[derive(Drop)]
pub struct TrieMap<V> {
    root: Tree<V>,
    len: usize,
    alloc: Global,
    ghost pruned: { IsTrue (is_pruned root) },
    ghost rooted: { IsTrue (is_rooted [] root) },
    ghost counted: { len ≡ count root },
    ghost paths: { HasPaths (content_of root) },
}

impl<V: Drop> TrieMap<V> {
    ghost use Rattle.std.specs.Prelude.{IsSome, IfSome};
    ghost use Rattle.ddt_trie.specs.PrefixMap.{IsCovered, IsLongest};
    ghost use Rattle.ddt_trie.specs.Trie.{trie_content};

    /// The longest prefix of the map that covers this one or is equal to it, with its value. None if there is none.
    pub fn longest_over(&self, prefix: Prefix) -> Option<(Prefix, &V)>
        ensures longest { IfSome result (λ found. IsLongest (trie_content self.now) prefix found.0 found.1.now) }
        ensures covered { IsCovered (trie_content self.now) prefix → IsSome result }
    {
        match self.root.longest(prefix, 0) {
            Some((len, value)) => Some((prefix.front(len), value)),
            None => None,
        }
    }
}

#[tactic(auto, using(crate::proofs::ContentLemmas::content_rules))]
impl<V: Drop> PrefixMap<V> for TrieMap<V> {
    ghost content = { λ m. content_of m.root };

    fn empty(alloc: Global) -> TrieMap<V> {
        TrieMap {
            root: Tree::Empty,
            len: 0,
            alloc,
        }
    }

    fn len(&self) -> usize {
        self.len
    }

    fn get(&self, prefix: Prefix) -> Option<&V> {
        self.root.get(prefix, 0)
    }

    fn longest(&self, x: Xeid) -> Option<(Prefix, &V)> {
        match self.root.longest(Prefix::host(x), 0) {
            Some((len, value)) => Some((Prefix::cut(x, len), value)),
            None => None,
        }
    }

    fn free(&self, from: Prefix, x: Xeid) -> Option<Prefix> {
        let len = self.root.least_specific_hole(Prefix::host(x), 0, 0)?;
        Some(Prefix::cut(x, len.max(from.len())))
    }

    fn free_below(&self, from: Prefix, x: Xeid) -> Option<Prefix> {
        let len = self
            .root
            .least_specific_hole(Prefix::host(x), 0, from.len() + 1)?;
        Some(Prefix::cut(x, len.max(from.len())))
    }

    fn insert(&mut self, prefix: Prefix, value: V) -> Result<Option<V>, (Prefix, V)> {
        // Each key is a prefix, which bounds the depth of the tree.
        let _form = prefix.form();
        let mut before = Some(value);
        if !self.root.insert(self.alloc, &prefix, 0, &mut before) {
            return match before {
                Some(refused) => Err((prefix, refused)),
                None => unreachable!(),
            };
        }
        if before.is_none() {
            self.len += 1;
        }
        Ok(before)
    }

    fn remove(&mut self, prefix: Prefix) -> Option<V> {
        let before = self.root.remove(prefix, 0);
        if before.is_some() {
            self.len -= 1;
        }
        before
    }

    fn retain<F: Fn(&V) -> bool>(&mut self, keep: &F) {
        self.len = self.root.retain(keep, self.len);
    }
}
