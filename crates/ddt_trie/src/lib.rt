//! Maps from prefixes to values, with the longest prefix that covers an identifier and the least specific prefix of a
//! delegation hole. A server's authorities and a resolver's cache are such maps.
//!
//! `PrefixMap` is the trait. `ListMap` has its entries in a list, `TrieMap` in a binary tree, and `HashedMap` in a tree
//! with a hash table beside it. `HashedMap` is for a server: it is filled once and then asked for every datagram.
//!
//! In reading order: `prefix_map` (the trait), `list_map`, `tree`, `trie_map`; `hash_key`, `hash_table`,
//! `hashed_map`; `laws`.
//! Tests: tests/crates/server/trie, hash and callers.
#![tactic(auto)]

mod hash_key;
mod hash_table;
mod hashed_map;
mod laws;
mod list_map;
mod prefix_map;
mod tree;
mod trie_map;

pub use hash_key::Duplicate;
pub use hashed_map::HashedMap;
pub use laws::{free_below_by_members, free_by_members, longest_by_entries, one_longest};
pub use list_map::ListMap;
pub use prefix_map::{MOST_ENTRIES, PrefixMap};
pub use trie_map::TrieMap;
