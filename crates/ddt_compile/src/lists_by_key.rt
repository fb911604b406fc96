//! Maps from a key to a list of values.

ghost use Rattle.std.specs.Prelude.{◌≡◌, [], ◌∷◌, ◌++◌, false, OnOk};
ghost use Rattle.std.specs.Ordering.{eq_by_cmp};
ghost use Rattle.ddt_compile.specs.Lists.{list_at};

use ddt_path::Listed;
use std::alloc::{AllocError, Global};
use std::collections::BTreeMap;

/// Appends a value to the list at a key.
pub fn append<K: Ord + Drop, V: Drop>(
    lists: &mut BTreeMap<K, Vec<V>>,
    alloc: Global,
    key: K,
    value: V,
) -> Result<(), AllocError>
    ensures here { OnOk result (list_at K.cmp lists.new key ≡ list_at K.cmp lists.old key ++ value ∷ []) }
    ensures elsewhere { OnOk result ((k : K) → eq_by_cmp K.cmp key k ≡ false → list_at K.cmp lists.new k ≡ list_at K.cmp
        lists.old k) }
{
    lists.entry(key)?.or_insert(Vec::new(alloc)).push(value)?;
    Ok(())
}

/// Removes and returns the list at a key; an empty list if there is none.
pub fn take<K: Ord + Drop, V: Drop>(
    lists: &mut BTreeMap<K, Vec<V>>,
    alloc: Global,
    key: &K,
) -> Listed<V>
    ensures here { result ≡ list_at K.cmp lists.old key.now }
    ensures elsewhere { (k : K) → eq_by_cmp K.cmp key.now k ≡ false → list_at K.cmp lists.new k ≡ list_at K.cmp
        lists.old k }
{
    match lists.remove(key) {
        Some(list) => Listed::of(list),
        None => Listed::of(Vec::new(alloc)),
    }
}
