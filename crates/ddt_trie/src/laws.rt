//! Laws of every map from prefixes. Each law is the contract of a function that does nothing.

ghost use Rattle.std.specs.Prelude.{◌≡◌, ℕ, List, filter, None, Some};
ghost use Rattle.std.specs.List.{list_any};
ghost use Rattle.std.specs.FinMap as map;
ghost use Rattle.ddt_path.specs.Covers.{is_same_path, is_strictly_below};
ghost use Rattle.ddt_path.specs.Free.{free};
ghost use Rattle.ddt_path.specs.Matching.{longest_match};
ghost use Rattle.ddt_trie.specs.PrefixMap.{path_cmp, IsCovered, keys_below, IsLongest};

/// The least specific hole among the keys of a map is the one among any list with the same members.
pub fn free_by_members<V>()
    ensures { (m : map.FinMap path_cmp V) (members : List (List ℕ)) →
        ((p : List ℕ) → map.contains_key m p ≡ list_any (is_same_path p) members) →
        (authority x : List ℕ) → free authority (map.keys m) x ≡ free authority members x }
{}

/// The least specific hole among the keys of a map that are strictly below a prefix is the one among those of any list
/// with the same members.
pub fn free_below_by_members<V>()
    ensures { (m : map.FinMap path_cmp V) (members : List (List ℕ)) →
        ((p : List ℕ) → map.contains_key m p ≡ list_any (is_same_path p) members) → (authority x : List ℕ) →
        free authority (keys_below m authority) x
        ≡ free authority (filter (λ k. is_strictly_below k authority) members) x }
{}

/// The longest key of the map of some entries is the longest match among them.
pub fn longest_by_entries<V>()
    ensures found { (entries : List (List ℕ × V)) (x p : List ℕ) (v : V) →
        IsLongest (map.from_entries {R = path_cmp} entries) x p v →
        longest_match (λ e. e.0) entries x ≡ Some (p, v) }
    ensures none { (entries : List (List ℕ × V)) (x : List ℕ) →
        (IsCovered (map.from_entries {R = path_cmp} entries) x → ⊥) →
        longest_match (λ e. e.0) entries x ≡ None }
{}

/// At most one key is the longest that covers an identifier, and it has one value.
pub fn one_longest<V>()
    ensures { (m : map.FinMap path_cmp V) (x p q : List ℕ) (v w : V) →
        IsLongest m x p v → IsLongest m x q w → (p ≡ q) × (v ≡ w) }
{}
