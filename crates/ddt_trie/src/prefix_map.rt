//! The trait of a map from prefixes to values: the longest prefix that covers an identifier, and the least specific
//! prefix of a delegation hole (RFC 8111, section 7.1).

ghost use Rattle.std.specs.Prelude.{◌≡◌, ◌<◌, IsTrue, IsOk, IsSome, IsNone, IfSome, IfNone, IfOk, IfErr, OnOk, OnErr};
ghost use Rattle.std.specs.Option.{option_copied};
ghost use Rattle.std.specs.Fn.{FnReturnsAt};
ghost use Rattle.std.specs.FinMap as map;
ghost use Rattle.ddt_path.specs.Path.{xeid_path};
ghost use Rattle.ddt_path.specs.Covers.{covers};
ghost use Rattle.ddt_path.specs.Free.{free};
ghost use Rattle.ddt_trie.specs.PrefixMap.{path_cmp, most_entries, IsCovered, keys_below, IsCoveredBelow, IsLongest, IsRetained};

use ddt_path::{Prefix, Xeid};
use std::alloc::Global;

/// The most entries of a map.
pub const MOST_ENTRIES: usize = 1_048_576;

/// A map from prefixes to values.
pub trait PrefixMap<V: Drop>: Drop {
    /// The entries of the map.
    ghost content: { Self → map.FinMap path_cmp V };

    /// A map without entries. It allocates from `alloc` as it grows.
    fn empty(alloc: Global) -> Self
        ensures { content result ≡ map.empty };

    /// The number of entries.
    fn len(&self) -> usize
        ensures { result ≡ map.len (content self.now) };

    /// The value of a prefix; None if the map doesn't have it.
    fn get(&self, prefix: Prefix) -> Option<&V>
        ensures { option_copied result ≡ map.get (content self.now) prefix };

    /// The longest match: the longest prefix that covers the identifier, with its value. None if no prefix covers it.
    fn longest(&self, x: Xeid) -> Option<(Prefix, &V)>
        ensures longest { IfSome result (λ found. IsLongest (content self.now) (xeid_path x) found.0 found.1.now) }
        ensures covered { IsCovered (content self.now) (xeid_path x) → IsSome result };

    /// The least specific hole: the shortest prefix, of `from` and those inside it, that covers the identifier and
    /// overlaps no prefix of the map. None if and only if a prefix of the map covers the identifier. `from` must cover
    /// the identifier.
    fn free(&self, from: Prefix, x: Xeid) -> Option<Prefix>
        requires { IsTrue (covers from (xeid_path x)) }
        ensures first { result ≡ free from (map.keys (content self.now)) (xeid_path x) }
        ensures none { IfNone result (IsCovered (content self.now) (xeid_path x)) }
        ensures covered { IsCovered (content self.now) (xeid_path x) → IsNone result };

    /// The least specific hole among the prefixes strictly below `from`: the shortest prefix, of `from` and those
    /// inside it, that covers the identifier and overlaps none of them. None if and only if one of them covers the
    /// identifier. `from` must cover the identifier.
    fn free_below(&self, from: Prefix, x: Xeid) -> Option<Prefix>
        requires { IsTrue (covers from (xeid_path x)) }
        ensures first { result ≡ free from (keys_below (content self.now) from) (xeid_path x) }
        ensures none { IfNone result (IsCoveredBelow (content self.now) from (xeid_path x)) }
        ensures covered { IsCoveredBelow (content self.now) from (xeid_path x) → IsNone result };

    /// Sets the value of a prefix, and returns the one before. If memory runs out, the map is unchanged, and the prefix
    /// and the value are returned. Replacing a value never allocates. The map must have less than 1,048,576 entries.
    fn insert(&mut self, prefix: Prefix, value: V) -> Result<Option<V>, (Prefix, V)>
        requires { map.len (content self.old) < most_entries }
        ensures before { IfOk result (λ before. before ≡ map.get (content self.old) prefix) }
        ensures inserted { OnOk result (content self.new ≡ map.insert (content self.old) prefix value) }
        ensures refused { IfErr result (λ back. (back.0 ≡ prefix) × (back.1 ≡ value)) }
        ensures unchanged { OnErr result (content self.new ≡ content self.old) }
        ensures replaced { IsSome (map.get (content self.old) prefix) → IsOk result };

    /// Removes a prefix, and returns its value.
    fn remove(&mut self, prefix: Prefix) -> Option<V>
        ensures before { result ≡ map.get (content self.old) prefix }
        ensures removed { content self.new ≡ map.remove (content self.old) prefix };

    /// Keeps the entries for whose value `keep` returns true, and removes the others.
    fn retain<F: Fn(&V) -> bool>(&mut self, keep: &F)
        requires { F.IsAlwaysCallable keep.now }
        ensures { IsRetained (FnReturnsAt F.Fn keep.now) (content self.old) (content self.new) };
}
