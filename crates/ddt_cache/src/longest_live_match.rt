//! The longest live match of an identifier; ended entries met on the way are removed (RFC 8111, section 7.3).

ghost use Rattle.std.specs.Prelude.{◌≡◌, ◌<◌, ◌≤◌, ◌⊎◌, [], ℕ, List, Some, IfSome, IfNone};
ghost use Rattle.std.specs.FinMap as map;
ghost use Rattle.ddt_path.specs.Path.{xeid_path};
ghost use Rattle.ddt_trie.specs.PrefixMap.{IsLongest, IsCovered};
ghost use Rattle.ddt_cache.specs.declared.cache_entry.Entry.{Entry as EntryValue};
ghost use Rattle.ddt_cache.specs.Live.{live_at};
ghost use Rattle.ddt_cache.specs.Ends.{AreNoted};

use crate::cache_entry::Entry;
use crate::ends_by_time::Ends;
use crate::entry_removal::drop_entry;
use ddt_path::{Prefix, Xeid};
use ddt_trie::PrefixMap;

/// Entries, some of which may have ended, and the entry of the root.
#[derive(Drop)]
pub(crate) struct Held<M: PrefixMap<Entry>> {
    pub(crate) entries: M,
    pub(crate) root: Entry,
}

impl<M: PrefixMap<Entry>> Held<M> {
    /// The longest prefix that covers the identifier, with its entry, ended or not; if there is none, the root's.
    pub(crate) fn longest_or_root(&self, x: Xeid) -> (Prefix, &Entry)
        ensures { IsLongest (M.content self.now.entries) (xeid_path x) result.0 result.1.now
            ⊎ ((IsCovered (M.content self.now.entries) (xeid_path x) → ⊥) ×
            (result.0 ≡ []) × (result.1.now ≡ self.now.root)) }
    {
        match self.entries.longest(x) {
            Some(found) => found,
            None => (Prefix::cut(x, 0), &self.root),
        }
    }
}

/// The longest prefix that covers the identifier, if its entry has ended.
fn ended_over<M: PrefixMap<Entry>>(entries: &M, time: u64, x: Xeid) -> Option<Prefix>
    ensures ended { IfSome result (λ p.
        (e : EntryValue) × (map.get (M.content entries.now) p ≡ Some e) × (e.end ≤ time)) }
    ensures none { IfNone result ((p : List ℕ) (e : EntryValue) →
        IsLongest (M.content entries.now) (xeid_path x) p e → time < e.end) }
{
    match entries.longest(x) {
        Some((prefix, entry)) => {
            if entry.end <= time {
                Some(prefix)
            } else {
                None
            }
        }
        None => None,
    }
}

/// Removes entries that have ended until the longest that covers the identifier is live.
pub(crate) fn drop_ended_over<M: PrefixMap<Entry>>(
    entries: &mut M,
    ends: &mut Ends,
    time: u64,
    x: Xeid,
)
    requires noted { AreNoted ends.old (M.content entries.old) }
    ensures noted { AreNoted ends.new (M.content entries.new) }
    ensures live { live_at time (M.content entries.new) ≡ live_at time (M.content entries.old) }
    ensures fewer { map.len (M.content entries.new) ≤ map.len (M.content entries.old) }
    ensures longest { (p : List ℕ) (e : EntryValue) →
        IsLongest (M.content entries.new) (xeid_path x) p e → time < e.end }
{
    while let Some(prefix) = ended_over(entries, time, x) {
        drop_entry(entries, ends, prefix);
    }
}

/// Removes entries that have ended until the longest that covers the identifier is live, and returns a copy of that
/// one; None if none covers it.
pub(crate) fn longest_live_over<M: PrefixMap<Entry>>(
    entries: &mut M,
    ends: &mut Ends,
    time: u64,
    x: Xeid,
) -> Option<(Prefix, Entry)>
    requires noted { AreNoted ends.old (M.content entries.old) }
    ensures noted { AreNoted ends.new (M.content entries.new) }
    ensures live { live_at time (M.content entries.new) ≡ live_at time (M.content entries.old) }
    ensures fewer { map.len (M.content entries.new) ≤ map.len (M.content entries.old) }
    ensures longest { IfSome result (λ found. IsLongest (M.content entries.new) (xeid_path x) found.0 found.1) }
    ensures unended { IfSome result (λ found. time < found.1.end) }
    ensures none { IfNone result (IsCovered (M.content entries.new) (xeid_path x) → ⊥) }
{
    while let Some(found) = longest_over(entries, x) {
        if time < found.1.end {
            return Some(found);
        }
        drop_entry(entries, ends, found.0);
    }
    None
}

/// The longest prefix that covers the identifier, with a copy of its entry, ended or not.
fn longest_over<M: PrefixMap<Entry>>(entries: &M, x: Xeid) -> Option<(Prefix, Entry)>
    ensures longest { IfSome result (λ found. IsLongest (M.content entries.now) (xeid_path x) found.0 found.1) }
    ensures none { IfNone result (IsCovered (M.content entries.now) (xeid_path x) → ⊥) }
{
    match entries.longest(x) {
        Some((prefix, entry)) => Some((prefix, *entry)),
        None => None,
    }
}
