//! Small entries that are sorted in place of the items of a list, which aren't moved.

ghost use Rattle.std.specs.Prelude.{◌≡◌, ◌==◌, ◌&&◌, IsTrue, IsPermutation, map, length};
ghost use Rattle.std.specs.Cmp.Lexicographic.{pointwise};
ghost use Rattle.ddt_check.specs.Order.{in_order, IsInOrder};

use crate::keyed::Keyed;
use std::alloc::AllocError;
use std::cmp::Ordering;

/// The 16 bytes that are sorted in place of an item: the first 64 bits of its sort key, which decide most comparisons,
/// and a reference to it.
pub struct SortEntry<'a, T: Keyed> {
    pub front: u64,
    pub item: &'a T,
    ghost fronted: { front ≡ T.front_of item.now },
    ghost in_range: { IsTrue (T.is_in_range item.now) },
}

impl<'a, T: Keyed> Clone for SortEntry<'a, T> {
    fn clone(&self) -> Result<SortEntry<'a, T>, AllocError> {
        Ok(*self)
    }
}

impl<'a, T: Keyed> Copy for SortEntry<'a, T> {}

impl<'a, T: Keyed> SortEntry<'a, T> {
    ghost use Rattle.std.specs.Prelude.{◌≡◌};

    /// The entry of an item.
    pub fn of(item: &'a T) -> SortEntry<'a, T>
        ensures { result.item.now ≡ item.now }
    {
        item.in_range();
        let front = item.front();
        SortEntry { front, item }
    }
}

/// How two items compare, by their keys and then by their rows. The items are read only if their numbers are equal.
fn compared<T: Keyed>(a: &SortEntry<T>, b: &SortEntry<T>) -> Ordering
    ensures { result ≡ in_order T.key T.row_of a.now.item.now b.now.item.now }
{
    match a.front.cmp(&b.front) {
        Ordering::Equal => tied(a.item, b.item),
        apart => apart,
    }
}

fn tied<T: Keyed>(a: &T, b: &T) -> Ordering
    ensures { result ≡ in_order T.key T.row_of a.now b.now }
{
    a.cmp_key(b).then(a.row().cmp(&b.row()))
}

/// Whether two items have the same number and the same key.
fn is_same_by_front<T: Keyed>(a: &SortEntry<T>, b: &SortEntry<T>) -> bool
    ensures { result ≡ (a.now.front == b.now.front
        && pointwise ◌==◌ (T.key a.now.item.now) (T.key b.now.item.now)) }
{
    a.front == b.front && a.item.has_same_key(b.item)
}

/// Whether two items have the same key. The items are read only if their numbers are equal.
pub fn is_same<T: Keyed>(a: &SortEntry<T>, b: &SortEntry<T>) -> bool
    ensures { result ≡ pointwise ◌==◌ (T.key a.now.item.now) (T.key b.now.item.now) }
{
    is_same_by_front(a, b)
}

/// Writes an entry for each item, in the order of the items.
fn write_entries<'a, T: Keyed>(entries: &mut [SortEntry<'a, T>], items: &'a [T])
    requires { length entries.old ≡ length items.now }
    ensures { map (λ e. e.item.now) entries.new ≡ items.now }
{
    for at in 0..entries.len() {
        entries[at] = SortEntry::of(&items[at]);
    }
}

fn sort_entries<T: Keyed>(entries: &mut [SortEntry<T>])
    ensures moved { IsPermutation entries.old entries.new }
    ensures sorted { IsInOrder T.key T.row_of (map (λ e. e.item.now) entries.new) }
{
    entries.sort_unstable_by(|a, b| compared(a, b));
}

/// Makes the entries those of the items, sorted by their keys, then by their rows.
pub fn sort_items<'a, T: Keyed>(entries: &mut [SortEntry<'a, T>], items: &'a [T])
    requires { length entries.old ≡ length items.now }
    ensures moved { IsPermutation items.now (map (λ e. e.item.now) entries.new) }
    ensures sorted { IsInOrder T.key T.row_of (map (λ e. e.item.now) entries.new) }
{
    write_entries(entries, items);
    sort_entries(entries);
}
