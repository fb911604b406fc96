//! The laws of every cache, from the definitions alone. Each law is the contract of a function that does nothing.

ghost use Rattle.std.specs.Prelude.{◌≡◌, ◌<◌, ◌≤◌, ℕ, IsTrue, List, length, max, Some, None};
ghost use Rattle.std.specs.FinMap as map;
ghost use Rattle.ddt_path.specs.declared.locator.Locator.{Locator as LocatorValue};
ghost use Rattle.ddt_path.specs.declared.record.ReferralRecord.{ReferralRecord as RecordValue};
ghost use Rattle.ddt_path.specs.Locators.{most_locators};
ghost use Rattle.ddt_cache.specs.declared.cache_entry.Entry.{Entry as EntryValue};
ghost use Rattle.ddt_cache.specs.Moment.{last_moment};
ghost use Rattle.ddt_cache.specs.Entry.{end_of, entry_of};
ghost use Rattle.ddt_cache.specs.Live.{Known, nothing_known, moved, forgotten};
ghost use Rattle.ddt_cache.specs.Saved.{is_saved, stored_in};
ghost use Rattle.ddt_cache.specs.Found.{IsFound};
ghost use Rattle.ddt_cache.specs.InOrder.{IsCacheInOrder};

/// Two moves of the time are one move to the later moment, and a move to an earlier moment changes nothing.
pub fn time_moves_on()
    ensures together { (k : Known) (m n : ℕ) → moved n (moved m k) ≡ moved (max m n) k }
    ensures again { (k : Known) (n : ℕ) → moved n (moved n k) ≡ moved n k }
    ensures back { (k : Known) (n : ℕ) → IsCacheInOrder k → n ≤ k.time → moved n k ≡ k }
{}

/// A saved entry is there until its end, and no longer.
pub fn saved_until_its_end()
    ensures before { (k : Known) (r : RecordValue) (n : ℕ) → IsTrue (is_saved k.live r) → n < end_of k.time r →
        map.get (moved n (stored_in k r)).live r.prefix ≡ Some (entry_of k.time r) }
    ensures after { (k : Known) (r : RecordValue) (n : ℕ) → IsTrue (is_saved k.live r) → end_of k.time r ≤ n →
        map.get (moved n (stored_in k r)).live r.prefix ≡ None }
{}

/// At most one entry is found for an identifier.
pub fn one_is_found()
    ensures { (k : Known) (x p q : List ℕ) (e f : EntryValue) → IsFound k x p e → IsFound k x q f → (p ≡ q) × (e ≡ f) }
{}

/// Each call keeps what holds of every cache.
pub fn order_is_kept()
    ensures empty { (roots : List LocatorValue) → length roots ≤ most_locators → IsCacheInOrder (nothing_known roots) }
    ensures moved { (k : Known) (now : ℕ) → now ≤ last_moment → IsCacheInOrder k → IsCacheInOrder (moved now k) }
    ensures stored { (k : Known) (r : RecordValue) → length r.servers ≤ most_locators → IsCacheInOrder k →
        IsCacheInOrder (stored_in k r) }
    ensures forgotten { (k : Known) (p : List ℕ) → IsCacheInOrder k → IsCacheInOrder (forgotten k p) }
{}
