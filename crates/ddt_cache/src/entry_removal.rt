//! The removal of entries: of one prefix, and of those that have ended.
//!
//! Ends are listed in order, so the ended entries are found without a look at the others. A save lists an end, and a
//! removal takes it off the list. All entries are walked only when one may have ended whose end isn't listed, because
//! memory had run out.

ghost use Rattle.std.specs.Prelude.{◌≡◌, ◌<◌, ◌≤◌, ◌⊎◌, ℕ, List};
ghost use Rattle.std.specs.FinMap as map;
ghost use Rattle.ddt_cache.specs.Moment.{last_moment};
ghost use Rattle.ddt_cache.specs.Live.{live_at};
ghost use Rattle.ddt_cache.specs.Ends.{IsUnlisted, IsNoted, AreNoted};

use crate::cache_entry::Entry;
use crate::ends_by_time::Ends;
use ddt_path::Prefix;
use ddt_trie::PrefixMap;

/// Whether a prefix has a live entry at `time`, in milliseconds.
pub(crate) fn is_live<M: PrefixMap<Entry>>(entries: &M, time: u64, prefix: Prefix) -> bool
    ensures { result ≡ map.contains_key (live_at time (M.content entries.now)) prefix }
{
    match entries.get(prefix) {
        Some(entry) => time < entry.end,
        None => false,
    }
}

/// Removes the entry of a prefix, and returns it.
pub(crate) fn drop_entry<M: PrefixMap<Entry>>(
    entries: &mut M,
    ends: &mut Ends,
    prefix: Prefix,
) -> Option<Entry>
    requires noted { AreNoted ends.old (M.content entries.old) }
    ensures noted { AreNoted ends.new (M.content entries.new) }
    ensures before { result ≡ map.get (M.content entries.old) prefix }
    ensures removed { M.content entries.new ≡ map.remove (M.content entries.old) prefix }
{
    let entry = entries.remove(prefix)?;
    ends.strike(prefix, entry.end);
    Some(entry)
}

/// Removes entries that have ended, until fewer than `enough` entries are left or every one is live.
pub(crate) fn drop_ended<M: PrefixMap<Entry>>(
    entries: &mut M,
    ends: &mut Ends,
    time: u64,
    enough: usize,
)
    requires noted { AreNoted ends.old (M.content entries.old) }
    requires moment { time ≤ last_moment }
    ensures noted { AreNoted ends.new (M.content entries.new) }
    ensures live { live_at time (M.content entries.new) ≡ live_at time (M.content entries.old) }
    ensures fewer { map.len (M.content entries.new) ≤ map.len (M.content entries.old) }
    ensures done { (map.len (M.content entries.new) < enough)
        ⊎ (M.content entries.new ≡ live_at time (M.content entries.old)) }
{
    while entries.len() >= enough {
        let Some(prefix) = ends.take_ended(time) else {
            drop_unlisted(entries, ends, time);
            return;
        };
        if !is_live(entries, time, prefix) {
            entries.remove(prefix);
        }
    }
}

/// Removes the entries that have ended when no end of theirs is listed.
fn drop_unlisted<M: PrefixMap<Entry>>(entries: &mut M, ends: &mut Ends, time: u64)
    requires noted { AreNoted ends.old (M.content entries.old) }
    requires unlisted { (p : List ℕ) (n : ℕ) → IsNoted ends.old p n → (time < n) ⊎ IsUnlisted ends.old n }
    requires moment { time ≤ last_moment }
    ensures noted { AreNoted ends.new (M.content entries.new) }
    ensures live { M.content entries.new ≡ live_at time (M.content entries.old) }
{
    if ends.unlisted_end_after(time) {
        return;
    }
    entries.retain(&|entry: &Entry| time < entry.end);
    ends.pass_unlisted(time);
}
