//! The live entries inside a prefix, in the order of their ends.

ghost use Rattle.std.specs.Prelude.{◌≡◌, ◌<◌, ℕ, IsTrue, List, All, Contains, Some, IfOk, IfSome};
ghost use Rattle.std.specs.FinMap as map;
ghost use Rattle.ddt_path.specs.Covers.{covers};
ghost use Rattle.ddt_cache.specs.declared.cache_entry.Entry.{Entry as EntryValue};
ghost use Rattle.ddt_cache.specs.Ends.{AreNoted};
ghost use Rattle.ddt_cache.specs.Inside.{IsRow};

use crate::cache_entry::Entry;
use crate::ends_by_time::Ends;
use ddt_path::Prefix;
use ddt_trie::PrefixMap;
use std::alloc::{AllocError, Global};

/// The row of a listed end and prefix; None unless the prefix's entry has this end and is live, and `within` covers the
/// prefix.
fn row_of<M: PrefixMap<Entry>>(
    entries: &M,
    time: u64,
    within: Prefix,
    listed: (u64, Prefix),
) -> Option<(Prefix, Entry)>
    ensures each { IfSome result (IsRow time (M.content entries.now) within) }
    ensures all { (row : List ℕ × EntryValue) → IsRow time (M.content entries.now) within row →
        row.1.end ≡ listed.0 → row.0 ≡ listed.1 → result ≡ Some row }
{
    let (end, prefix) = listed;
    match entries.get(prefix) {
        Some(entry) => {
            if entry.end == end && time < end && within.covers(prefix) {
                Some((prefix, *entry))
            } else {
                None
            }
        }
        None => None,
    }
}

/// The rows of the live entries whose prefixes are `within` or inside it, in the order of their ends. Fails only if out
/// of memory, or if memory ran out earlier for the list of ends and an entry that is missing there may still be live.
pub(crate) fn rows_inside<M: PrefixMap<Entry>>(
    alloc: Global,
    entries: &M,
    ends: &Ends,
    time: u64,
    within: Prefix,
) -> Result<Vec<(Prefix, Entry)>, AllocError>
    requires { AreNoted ends.now (M.content entries.now) }
    ensures each { IfOk result (λ rows. All (IsRow time (M.content entries.now) within) rows.items) }
    ensures all { IfOk result (λ rows. (row : List ℕ × EntryValue) →
        IsRow time (M.content entries.now) within row → Contains rows.items row) }
{
    if !ends.unlisted_ended_by(time) {
        return Err(AllocError);
    }
    let mut rows = Vec::new(alloc);
    for listed in &ends.listed {
        if let Some(row) = row_of(entries, time, within, *listed) {
            rows.push(row)?;
        }
    }
    Ok(rows)
}
