//! The rules that no two zones and no two sites have one prefix, and no two groups one name, over lists that are sorted
//! by these keys, then by rows.

ghost use Rattle.std.specs.Prelude.{◌≡◌, ◌<◌, true, List, IsPermutation, slice_index_or, length, map};
ghost use Rattle.ddt_register.specs.Rows.{rise};
ghost use Rattle.ddt_check.specs.Rules.{IsLeastRow, item_at, is_duplicate};
ghost use Rattle.ddt_check.specs.Order.{IsInOrder};

use crate::entries::{SortEntry, is_same};
use crate::keyed::Keyed;
use crate::rules::lower;

/// Whether an item of an earlier row has the same key as the item at a place. The item before it then has that key.
fn repeats<T: Keyed>(entries: &[SortEntry<T>], at: usize) -> bool
    requires inside { at < length entries.now }
    requires sorted { IsInOrder T.key T.row_of (map (λ e. e.item.now) entries.now) }
    ensures { (all : List T) (d : T) → rise 0 (map T.row_of all) ≡ true
        → IsPermutation all (map (λ e. e.item.now) entries.now)
        → result ≡ is_duplicate T.key T.row_of all (slice_index_or (map (λ e. e.item.now) entries.now) at d) }
{
    if at == 0 {
        return false;
    }
    is_same(&entries[at - 1], &entries[at])
}

/// The least row of an item whose key an earlier one has.
pub fn duplicate<T: Keyed>(entries: &[SortEntry<T>]) -> Option<u32>
    requires { IsInOrder T.key T.row_of (map (λ e. e.item.now) entries.now) }
    ensures { (all : List T) → rise 0 (map T.row_of all) ≡ true
        → IsPermutation all (map (λ e. e.item.now) entries.now)
        → IsLeastRow (item_at T.row_of (is_duplicate T.key T.row_of all) all) result }
{
    let mut least = None;
    for at in 0..entries.len() {
        if repeats(entries, at) {
            least = Some(lower(least, entries[at].item.row()));
        }
    }
    least
}
