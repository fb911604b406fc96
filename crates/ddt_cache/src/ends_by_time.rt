//! The list of ends, in the order of time: a full cache finds the ended entries without a walk over all entries.

ghost use Rattle.std.specs.Prelude.{◌≡◌, ◌<◌, ◌≤◌, ◌⊎◌, ℕ, List, false, length, IsTrue, IfSome, IfNone};
ghost use Rattle.std.specs.Bool.{OnTrue};
ghost use Rattle.std.specs.BTreeSet.{contains};
ghost use Rattle.ddt_cache.specs.Ends.{end_cmp, IsUnlisted, IsNoted};

use crate::cache_entry::Entry;
use ddt_path::Prefix;
use std::alloc::Global;
use std::collections::BTreeSet;

/// The ends of the entries. Each is listed with its prefix, unless memory for the list ran out.
#[derive(Drop)]
pub(crate) struct Ends {
    pub(crate) listed: BTreeSet<(u64, Prefix)>,
    /// The least moment, in milliseconds, at which an entry that isn't listed ends.
    first_unlisted: u64,
    /// The greatest moment, in milliseconds, at which an entry that isn't listed ends.
    last_unlisted: u64,
}

impl Ends {
    /// The ends of no entries.
    pub(crate) fn new(alloc: Global) -> Ends
        ensures { (p : List ℕ) (n : ℕ) → IsNoted result p n → ⊥ }
    {
        Ends {
            listed: BTreeSet::new(alloc),
            first_unlisted: u64::MAX,
            last_unlisted: 0,
        }
    }

    /// Notes the end of the entry of a prefix.
    pub(crate) fn note(&mut self, prefix: Prefix, end: u64)
        ensures noted { IsNoted self.new prefix end }
        ensures others { (p : List ℕ) (n : ℕ) → IsNoted self.old p n → IsNoted self.new p n }
    {
        match self.listed.insert((end, prefix)) {
            Ok(_is_new) => {}
            Err(_refused) => {
                self.first_unlisted = self.first_unlisted.min(end);
                self.last_unlisted = self.last_unlisted.max(end);
            }
        }
    }

    /// Notes the end of the entry of a prefix, in place of the end of the entry that it replaced.
    pub(crate) fn note_instead(&mut self, prefix: Prefix, replaced: Option<Entry>, end: u64)
        ensures noted { IsNoted self.new prefix end }
        ensures others { (p : List ℕ) (n : ℕ) → IsNoted self.old p n → (p ≡ prefix) ⊎ IsNoted self.new p n }
    {
        if let Some(entry) = replaced {
            self.strike(prefix, entry.end);
        }
        self.note(prefix, end);
    }

    /// Takes the end of the entry of a prefix off the list.
    pub(crate) fn strike(&mut self, prefix: Prefix, end: u64)
        ensures struck { contains end_cmp self.new.listed (end, prefix) ≡ false }
        ensures others { (p : List ℕ) (n : ℕ) → IsNoted self.old p n →
            ((p ≡ prefix) × (n ≡ end)) ⊎ IsNoted self.new p n }
        ensures fewer { IsTrue (contains end_cmp self.old.listed (end, prefix)) →
            length self.new.listed.keys < length self.old.listed.keys }
    {
        self.listed.remove(&(end, prefix));
    }

    /// Takes the first end off the list and returns its prefix; None if no listed end has come by `time`.
    pub(crate) fn take_ended(&mut self, time: u64) -> Option<Prefix>
        ensures ended { IfSome result (λ prefix. (end : ℕ) × (end ≤ time) ×
            ((p : List ℕ) (n : ℕ) → IsNoted self.old p n → ((p ≡ prefix) × (n ≡ end)) ⊎ IsNoted self.new p n)) }
        ensures fewer { IfSome result (λ _. length self.new.listed.keys < length self.old.listed.keys) }
        ensures unchanged { IfNone result (self.new ≡ self.old) }
        ensures later { IfNone result ((p : List ℕ) (n : ℕ) →
            IsNoted self.new p n → (time < n) ⊎ IsUnlisted self.new n) }
    {
        let &(end, prefix) = self.listed.first()?;
        if time < end {
            return None;
        }
        self.strike(prefix, end);
        Some(prefix)
    }

    /// Whether each entry that isn't listed ends after a time.
    pub(crate) fn unlisted_end_after(&self, time: u64) -> bool
        ensures { OnTrue result ((n : ℕ) → IsUnlisted self.now n → time < n) }
    {
        time < self.first_unlisted
    }

    /// Whether each entry that isn't listed has ended by a time.
    pub(crate) fn unlisted_ended_by(&self, time: u64) -> bool
        ensures { OnTrue result ((n : ℕ) → IsUnlisted self.now n → n ≤ time) }
    {
        self.last_unlisted <= time || self.last_unlisted < self.first_unlisted
    }

    /// Notes that each entry that isn't listed ends after a time.
    pub(crate) fn pass_unlisted(&mut self, time: u64)
        requires { time < 18446744073709551615 }
        ensures { (p : List ℕ) (n : ℕ) → time < n → IsNoted self.old p n → IsNoted self.new p n }
    {
        self.first_unlisted = if self.last_unlisted <= time {
            u64::MAX
        } else {
            time + 1
        };
    }
}
