//! What the items of a list are sorted by: the prefix of a zone or a site, the name of a group.

ghost use Rattle.std.specs.Prelude.{◌≡◌, ◌==◌, ◌<◌, true, IsTrue, List, ℕ};
ghost use Rattle.std.specs.Cmp.Lexicographic.{pointwise, slice_cmp};
ghost use Rattle.std.specs.Ordering.{nat_cmp, is_lt};
ghost use Rattle.ddt_check.specs.Fronts.{prefix_front as prefix_front_of, name_front as name_front_of};
ghost use Rattle.ddt_check.specs.laws.Fronts.{zones_by_front, sites_by_front, groups_by_front};

use crate::sort_key_fronts::{name_front, prefix_front};
use ddt_register::{Group, Item, Site, Zone};
use std::cmp::Ordering;

/// An item with a key that no two items of a list may share: the prefix of a zone or a site, or the name of a group.
pub trait Keyed: Item {
    /// The digits of its prefix, or the bytes of its name.
    ghost key: { Self → List ℕ };

    /// The first 64 bits of its sort key: of two items, the one with the lower number has the lower key.
    ghost front_of: { Self → ℕ };

    /// Whether another item has the same key.
    fn has_same_key(&self, other: &Self) -> bool
        ensures { result ≡ pointwise ◌==◌ (key self.now) (key other.now) };

    /// How its key compares with that of another item.
    fn cmp_key(&self, other: &Self) -> Ordering
        ensures { result ≡ slice_cmp nat_cmp (key self.now) (key other.now) };

    /// The first 64 bits of its sort key, which decide most comparisons.
    fn front(&self) -> u64
        ensures { result ≡ front_of self.now };

    ghost fronts: { (a b : Self) → IsTrue (Self.Item.is_in_range a) → IsTrue (Self.Item.is_in_range b)
        → front_of a < front_of b → is_lt (slice_cmp nat_cmp (key a) (key b)) ≡ true };
}

impl Keyed for Zone {
    ghost key = { λ z. z.prefix };

    ghost front_of = { λ z. prefix_front_of z.prefix };

    fn has_same_key(&self, other: &Zone) -> bool {
        self.prefix == other.prefix
    }

    fn cmp_key(&self, other: &Zone) -> Ordering {
        self.prefix.cmp(&other.prefix)
    }

    fn front(&self) -> u64 {
        prefix_front(self.prefix)
    }

    ghost fronts = { zones_by_front };
}

impl Keyed for Site {
    ghost key = { λ s. s.prefix };

    ghost front_of = { λ s. prefix_front_of s.prefix };

    fn has_same_key(&self, other: &Site) -> bool {
        self.prefix == other.prefix
    }

    fn cmp_key(&self, other: &Site) -> Ordering {
        self.prefix.cmp(&other.prefix)
    }

    fn front(&self) -> u64 {
        prefix_front(self.prefix)
    }

    ghost fronts = { sites_by_front };
}

impl Keyed for Group {
    ghost key = { λ g. g.name };

    ghost front_of = { λ g. name_front_of g.name };

    fn has_same_key(&self, other: &Group) -> bool {
        self.name == other.name
    }

    fn cmp_key(&self, other: &Group) -> Ordering {
        self.name.cmp(&other.name)
    }

    fn front(&self) -> u64 {
        name_front(&self.name)
    }

    ghost fronts = { groups_by_front };
}
