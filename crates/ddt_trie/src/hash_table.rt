//! A hash table of prefixes, with the list of their lengths. A longest match takes one look-up for each length,
//! beginning with the longest.

ghost use Rattle.std.specs.Prelude.{◌≡◌, ◌≤◌, ℕ, None, Some, IsTrue, IsSome, IfSome, IfNone, IfOk, [], ◌∷◌, ◌++◌, take, length};
ghost use Rattle.std.specs.List.Sorted.{IsNonDecreasing, IsPermutation};
ghost use Rattle.std.specs.FinMap as map;
ghost use Rattle.std.specs.Option.{option_map};
ghost use Rattle.ddt_path.specs.Path.{xeid_path};
ghost use Rattle.ddt_trie.specs.PrefixMap.{path_cmp, IsCovered, IsLongest};
ghost use Rattle.ddt_trie.specs.HashTable.{is_length, IsSetAt, IsTableOf};

use crate::hash_key::{BlockKey, HashKey, PrefixKey, hash_key_of};
use ddt_path::{Prefix, Xeid};
use std::alloc::{AllocError, Global};
use std::collections::HashMap;

/// The most lengths of a table. With eight lengths the look-ups take as long as a walk down a tree.
const MOST_LENGTHS: usize = 8;

/// A table of the values of prefixes.
#[derive(Drop)]
pub struct PrefixTable<V> {
    /// The values of blocks of IPv4 addresses.
    blocks: HashMap<BlockKey, V>,
    /// The values of all other prefixes.
    others: HashMap<PrefixKey, V>,
    /// The lengths of the prefixes, in rising order.
    lengths: Vec<u8>,
}

impl<V: Drop> PrefixTable<V> {
    /// A table without prefixes.
    pub fn new(alloc: Global) -> PrefixTable<V>
        ensures { IsTableOf result map.empty }
    {
        PrefixTable {
            blocks: HashMap::new(alloc),
            others: HashMap::new(alloc),
            lengths: Vec::new(alloc),
        }
    }

    /// The table with the value of a prefix set. None if memory runs out, or if the prefixes would have more than eight
    /// lengths.
    pub fn with(mut self, prefix: Prefix, value: V) -> Option<PrefixTable<V>>
        ensures { (m : map.FinMap path_cmp V) → IsTableOf self m
            → IfSome result (λ t. IsTableOf t (map.insert m prefix value)) }
    {
        self.lengths = with_length(self.lengths, prefix.len())?;
        self.set(hash_key_of(prefix), value)
    }

    /// The table with the value of a key set. None if memory runs out.
    fn set(mut self, slot: HashKey, value: V) -> Option<PrefixTable<V>>
        ensures { IfSome result (λ t. IsSetAt self t slot value) }
    {
        match slot {
            HashKey::Block(key) => match self.blocks.insert(key, value) {
                Ok(_before) => Some(self),
                Err(_refused) => None,
            },
            HashKey::Other(key) => match self.others.insert(key, value) {
                Ok(_before) => Some(self),
                Err(_refused) => None,
            },
        }
    }

    /// The longest prefix of the table that covers the identifier, with its value. None if no prefix covers it.
    pub fn longest(&self, x: Xeid) -> Option<(Prefix, &V)>
        ensures longest { (m : map.FinMap path_cmp V) → IsTableOf self.now m
            → IfSome result (λ found. IsLongest m (xeid_path x) found.0 found.1.now) }
        ensures covered { (m : map.FinMap path_cmp V) → IsTableOf self.now m
            → IsCovered m (xeid_path x) → IsSome result }
    {
        for at in (0..self.lengths.len()).rev() {
            if let Some(found) = self.at_length(x, self.lengths[at]) {
                return Some(found);
            }
        }
        None
    }

    /// The value of a prefix.
    fn get(&self, prefix: Prefix) -> Option<&V>
        ensures { (m : map.FinMap path_cmp V) → IsTableOf self.now m
            → option_map (λ v. v.now) result ≡ map.get m prefix }
    {
        match hash_key_of(prefix) {
            HashKey::Block(key) => self.blocks.get(&key),
            HashKey::Other(key) => self.others.get(&key),
        }
    }

    /// The prefix of this length that covers the identifier, with its value. None if the table doesn't have it.
    fn at_length(&self, x: Xeid, len: u8) -> Option<(Prefix, &V)>
        ensures fits { IfSome result (λ found. len ≤ length (xeid_path x)) }
        ensures front { IfSome result (λ found. found.0 ≡ take len (xeid_path x)) }
        ensures value { (m : map.FinMap path_cmp V) → IsTableOf self.now m
            → IfSome result (λ found. map.get m found.0 ≡ Some found.1.now) }
        ensures none { (m : map.FinMap path_cmp V) → IsTableOf self.now m
            → IfNone result (len ≤ length (xeid_path x) → map.get m (take len (xeid_path x)) ≡ None) }
    {
        if len > x.path_len() {
            return None;
        }
        let prefix = Prefix::cut(x, len);
        match self.get(prefix) {
            Some(value) => Some((prefix, value)),
            None => None,
        }
    }
}

/// The lengths and this one, if it is new, in rising order. None if memory runs out, or if they would be more than
/// eight.
#[tactic(auto, using(crate::proofs::HashTableLemmas::length_kept, crate::proofs::HashTableLemmas::length_added, crate::proofs::HashTableLemmas::asked))]
fn with_length(lengths: Vec<u8>, len: u8) -> Option<Vec<u8>>
    ensures kept { IfSome result (λ l. (n : ℕ) → IsTrue (is_length lengths.items n) → IsTrue (is_length l.items n)) }
    ensures added { IfSome result (λ new. IsTrue (is_length new.items len)) }
    ensures rising { IsNonDecreasing lengths.items → IfSome result (λ new. IsNonDecreasing new.items) }
{
    if lengths.contains(&len) {
        return Some(lengths);
    }
    if lengths.len() == MOST_LENGTHS {
        return None;
    }
    match one_more(lengths, len) {
        Ok(new) => Some(new),
        Err(_refused) => None,
    }
}

/// The lengths and one more, in rising order. Fails only if out of memory.
fn one_more(mut lengths: Vec<u8>, len: u8) -> Result<Vec<u8>, AllocError>
    ensures all { IfOk result (λ new. IsPermutation (lengths.items ++ len ∷ []) new.items) }
    ensures rising { IfOk result (λ new. IsNonDecreasing new.items) }
{
    lengths.push(len)?;
    lengths.sort()?;
    Ok(lengths)
}
