//! Saving a record: whether it is saved, its end, and the room for it (RFC 8111, sections 6.4 and 7.3).

ghost use Rattle.std.specs.Prelude.{◌≡◌, ◌≤◌, length, IsTrue, IfOk, OnOk, OnErr, IsOk};
ghost use Rattle.std.specs.FinMap as map;
ghost use Rattle.ddt_path.specs.Locators.{most_locators};
ghost use Rattle.ddt_cache.specs.Moment.{last_moment};
ghost use Rattle.ddt_cache.specs.Entry.{most_positive_minutes, most_minutes as most_minutes_of, entry_of};
ghost use Rattle.ddt_cache.specs.Live.{live_at};
ghost use Rattle.ddt_cache.specs.Ends.{AreNoted};
ghost use Rattle.ddt_cache.specs.Saved.{most_live_entries, savable, has_room, is_added, saving, stored};

use crate::cache_entry::{Entry, Saved};
use crate::ends_by_time::Ends;
use crate::entry_removal::{drop_ended, is_live};
use crate::limits::{MOST_LIVE_ENTRIES, NEGATIVE_TTL_CAP_MINUTES, POSITIVE_TTL_CAP_MINUTES};
use ddt_path::{Action, NOT_AUTHORITATIVE_TTL, Prefix, ReferralRecord};
use ddt_trie::PrefixMap;
use std::alloc::AllocError;

/// The number of milliseconds in a minute.
const MS_PER_MINUTE: u64 = 60_000;

/// The cap on the TTL of a saved record of an action, in minutes.
fn most_minutes(action: Action) -> u32
    ensures value { result ≡ most_minutes_of action }
    ensures bound { result ≤ most_positive_minutes }
{
    match action {
        Action::NodeReferral | Action::MsReferral | Action::MsAck => POSITIVE_TTL_CAP_MINUTES,
        Action::MsNotRegistered | Action::DelegationHole => NEGATIVE_TTL_CAP_MINUTES,
        Action::NotAuthoritative => NOT_AUTHORITATIVE_TTL,
    }
}

/// Whether a record is one to save: its TTL isn't 0 and its action isn't NOT-AUTHORITATIVE; a positive one also has a
/// locator and a prefix that isn't everything.
fn is_savable(referral: &ReferralRecord) -> bool
    ensures { result ≡ savable referral.now }
{
    match referral.action {
        Action::NodeReferral | Action::MsReferral | Action::MsAck => {
            referral.ttl > 0 && !referral.servers.as_slice().is_empty() && referral.prefix.len() > 0
        }
        Action::MsNotRegistered | Action::DelegationHole => referral.ttl > 0,
        Action::NotAuthoritative => false,
    }
}

/// Whether there is room for an entry of a prefix. If 65,536 entries are held and none is a live entry of the prefix,
/// an entry that has ended is removed first.
fn make_room<M: PrefixMap<Entry>>(
    entries: &mut M,
    ends: &mut Ends,
    time: u64,
    prefix: Prefix,
) -> bool
    requires few { map.len (M.content entries.old) ≤ most_live_entries }
    requires noted { AreNoted ends.old (M.content entries.old) }
    requires moment { time ≤ last_moment }
    ensures noted { AreNoted ends.new (M.content entries.new) }
    ensures live { live_at time (M.content entries.new) ≡ live_at time (M.content entries.old) }
    ensures room { result ≡ has_room (live_at time (M.content entries.old)) prefix }
    ensures left { IsTrue result → IsTrue (has_room (M.content entries.new) prefix) }
    ensures bound { map.len (M.content entries.new) ≤ most_live_entries }
{
    if entries.len() < MOST_LIVE_ENTRIES {
        return true;
    }
    if is_live(entries, time, prefix) {
        return true;
    }
    drop_ended(entries, ends, time, MOST_LIVE_ENTRIES);
    entries.get(prefix).is_some() || entries.len() < MOST_LIVE_ENTRIES
}

/// The entry of a record that is saved at `time`, in milliseconds.
fn entry_at(time: u64, referral: &ReferralRecord) -> Entry
    requires { time ≤ last_moment }
    ensures { result ≡ entry_of time referral.now }
{
    let minutes = referral.ttl.min(most_minutes(referral.action));
    Entry {
        action: referral.action,
        servers: referral.servers,
        end: time + minutes as u64 * MS_PER_MINUTE,
    }
}

/// Saves a record at `time`, in milliseconds; some of the entries may have ended by then. Fails only if out of memory,
/// which a record that replaces a live entry never is.
pub(crate) fn save_among<M: PrefixMap<Entry>>(
    entries: &mut M,
    ends: &mut Ends,
    time: u64,
    referral: &ReferralRecord,
) -> Result<Saved, AllocError>
    requires few { map.len (M.content entries.old) ≤ most_live_entries }
    requires noted { AreNoted ends.old (M.content entries.old) }
    requires moment { time ≤ last_moment }
    ensures noted { AreNoted ends.new (M.content entries.new) }
    ensures stored { OnOk result (live_at time (M.content entries.new) ≡
        stored time (live_at time (M.content entries.old)) referral.now) }
    ensures answer { IfOk result (λ saved. saved ≡ saving (live_at time (M.content entries.old)) referral.now) }
    ensures bound { map.len (M.content entries.new) ≤ most_live_entries }
    ensures unchanged { OnErr result (live_at time (M.content entries.new) ≡ live_at time (M.content entries.old)) }
    ensures wanted { OnErr result (IsTrue (is_added (live_at time (M.content entries.old)) referral.now)) }
    ensures replaced { IsTrue (map.contains_key (live_at time (M.content entries.old)) referral.now.prefix) →
        IsOk result }
    ensures servers { length referral.now.servers ≤ most_locators }
{
    // The slice shows the proof that a set holds at most 8 locators.
    let _few = referral.servers.as_slice();
    if !is_savable(referral) {
        return Ok(Saved::NotSaved);
    }
    if !make_room(entries, ends, time, referral.prefix) {
        return Ok(Saved::Full);
    }
    let entry = entry_at(time, referral);
    let end = entry.end;
    match entries.insert(referral.prefix, entry) {
        Ok(replaced) => {
            ends.note_instead(referral.prefix, replaced, end);
            Ok(Saved::Saved)
        }
        Err(_refused) => Err(AllocError),
    }
}
