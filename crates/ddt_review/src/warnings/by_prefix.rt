//! Items by their prefixes: the longest that covers a prefix is found along one path.

ghost use Rattle.std.specs.Prelude.{◌≡◌, ◌<◌, List, length, IfOk};
ghost use Rattle.std.specs.Option.{option_copied};
ghost use Rattle.ddt_path.specs.Matching.{longest_match};
ghost use Rattle.ddt_trie.specs.PrefixMap.{most_entries};
ghost use Rattle.ddt_trie.specs.Trie.{trie_content};
ghost use Rattle.ddt_review.specs.Warnings.Found.{HasItems, HaveOwnPrefixes};

use ddt_path::{Prefix, Prefixed};
use ddt_trie::{PrefixMap, TrieMap};
use std::alloc::{AllocError, Global};

/// Items by their prefixes. Fails only if out of memory.
pub fn by_prefix<'a, T: Prefixed>(
    alloc: Global,
    items: &'a [T],
) -> Result<TrieMap<&'a T>, AllocError>
    requires few { length items.now < most_entries }
    requires apart { HaveOwnPrefixes T.path items.now }
    ensures { IfOk result (λ kept. HasItems T.path items.now (trie_content kept)) }
{
    let mut kept = TrieMap::empty(alloc);
    for item in items {
        match kept.insert(item.prefix(), item) {
            Ok(_before) => {}
            Err(_refused) => return Err(AllocError),
        }
    }
    Ok(kept)
}

/// The item of the longest prefix that covers `prefix`.
pub fn longest<'a, T: Prefixed>(kept: &TrieMap<&'a T>, prefix: Prefix) -> Option<&'a T>
    ensures { (items : List T) → HasItems T.path items (trie_content kept.now) → HaveOwnPrefixes T.path items →
        option_copied result ≡ longest_match T.path items prefix }
{
    match kept.longest_over(prefix) {
        Some(found) => Some(*found.1),
        None => None,
    }
}
