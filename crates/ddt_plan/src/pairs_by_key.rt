//! Maps from a key to what an earlier and a later register have under it, and the keys under which they differ.

ghost use Rattle.std.specs.Prelude.{◌≡◌, IfOk, None, Some, unwrap_or};
ghost use Rattle.std.specs.List.{filter_map};
ghost use Rattle.std.specs.BTreeMap.{get, Updates, IsOrdered};
ghost use Rattle.ddt_plan.specs.declared.pairs_by_key.Pair.{Pair as APair};
ghost use Rattle.ddt_plan.specs.Items.{is_same_if_any as is_same_if_any_of};
ghost use Rattle.ddt_plan.specs.Tables.{with_value as with_value_of, change_of as change_of_entry};

use crate::items::ItemChange;
use crate::versions::Which;
use std::alloc::{AllocError, Global};
use std::collections::BTreeMap;

/// What an earlier register and a later one have under a key.
#[derive(Clone, Copy)]
pub struct Pair<V> {
    /// None if the earlier register has nothing there.
    pub before: Option<V>,
    /// None if the later register has nothing there.
    pub after: Option<V>,
}

/// Puts what a register has under a key. Of two rows of a register with the same key, the first counts.
pub fn put<K: Ord + Copy + Drop, V: Copy + Drop>(
    table: &mut BTreeMap<K, Pair<V>>,
    which: Which,
    key: K,
    value: V,
) -> Result<(), AllocError>
    ensures { IfOk result (λ _. (known : APair V)
        × (known ≡ unwrap_or (get K.Ord.cmp table.old key) (record { before = None; after = None }))
        × Updates K.Ord.cmp table.old table.new key (Some (with_value_of which known value))) }
{
    let known = match table.get(&key) {
        Some(pair) => *pair,
        None => Pair {
            before: None,
            after: None,
        },
    };
    table.insert(key, with_value(which, known, value))?;
    Ok(())
}

fn with_value<V: Copy + Drop>(which: Which, pair: Pair<V>, value: V) -> Pair<V>
    ensures { result ≡ with_value_of which pair value }
{
    match which {
        Which::Earlier => Pair {
            before: pair.before.or(Some(value)),
            after: pair.after,
        },
        Which::Later => Pair {
            before: pair.before,
            after: pair.after.or(Some(value)),
        },
    }
}

/// The keys under which the registers differ, in order, each with what they have there.
pub fn changes_of<K: Ord + Copy + Drop, V: Copy + Drop + PartialEq>(
    alloc: Global,
    table: BTreeMap<K, Pair<V>>,
) -> Result<Vec<ItemChange<K, V>>, AllocError>
    ensures { IfOk result (λ changes. changes.items ≡ filter_map (change_of_entry V.PartialEq.eq) table.entries
        × IsOrdered K.Ord.cmp table) }
{
    table
        .into_iter()
        .filter_map(|(key, pair)| change_of(key, pair))
        .collect(alloc)
}

fn change_of<K: Copy + Drop, V: Copy + Drop + PartialEq>(
    key: K,
    pair: Pair<V>,
) -> Option<ItemChange<K, V>>
    ensures { result ≡ change_of_entry V.PartialEq.eq (key, pair) }
{
    if is_same_if_any(&pair.before, &pair.after) {
        return None;
    }
    Some(ItemChange {
        key,
        before: pair.before,
        after: pair.after,
    })
}

/// Whether both are None, or both are Some with the same value.
fn is_same_if_any<V: PartialEq>(before: &Option<V>, after: &Option<V>) -> bool
    ensures { result ≡ is_same_if_any_of V.PartialEq.eq before.now after.now }
{
    match (before, after) {
        (None, None) => true,
        (Some(before), Some(after)) => *before == *after,
        _ => false,
    }
}
