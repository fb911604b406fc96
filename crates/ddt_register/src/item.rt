//! What zones, sites and groups have in common: a row, and numbers in the ranges of their types.

ghost use Rattle.std.specs.Prelude.{◌≡◌, ℕ, Bool, IsTrue};
ghost use Rattle.std.specs.List.{list_all};
ghost use Rattle.ddt_path.specs.Matching.{AnswersAs};
ghost use Rattle.ddt_register.specs.Rows.{first_row as first_row_of};
ghost use Rattle.ddt_register.specs.Ranges.{is_zone_in_range, is_site_in_range, is_group_in_range, are_locators};

use crate::group::Group;
use crate::site::Site;
use crate::zone::Zone;
use ddt_path::{Locator, Prefix, Prefixed};

/// An item of a register.
pub trait Item {
    /// Its row.
    ghost row_of: { Self → ℕ };

    /// Whether its numbers are in the ranges of their types.
    ghost is_in_range: { Self → Bool };

    /// Its row, 1 to 65,535 in a register.
    fn row(&self) -> u32
        ensures { result ≡ row_of self.now };

    /// That its numbers are in the ranges of their types, as those of every item are. It does nothing.
    fn in_range(&self)
        ensures { IsTrue (is_in_range self.now) };
}

impl Item for Zone {
    ghost row_of = { λ z. z.row };

    ghost is_in_range = { is_zone_in_range };

    fn row(&self) -> u32 {
        self.row
    }

    fn in_range(&self) {
        let _form = self.prefix.form();
        let _name = self.group.as_bytes();
    }
}

impl Item for Site {
    ghost row_of = { λ s. s.row };

    ghost is_in_range = { is_site_in_range };

    fn row(&self) -> u32 {
        self.row
    }

    fn in_range(&self) {
        let _form = self.prefix.form();
        locators_in_range(self.etrs.as_slice());
    }
}

impl Item for Group {
    ghost row_of = { λ g. g.row };

    ghost is_in_range = { is_group_in_range };

    fn row(&self) -> u32 {
        self.row
    }

    fn in_range(&self) {
        let _name = self.name.as_bytes();
        locators_in_range(self.locators.as_slice());
    }
}

impl Prefixed for Zone {
    ghost path = { λ z. z.prefix };

    fn prefix(&self) -> Prefix {
        self.prefix
    }
}

impl Prefixed for Site {
    ghost path = { λ s. s.prefix };

    fn prefix(&self) -> Prefix {
        self.prefix
    }
}

/// The row of the first item that passes a test; None where none does.
pub fn first_row<T: Item, F: Fn(&T) -> bool>(items: &[T], test: F) -> Option<u32>
    requires { F.IsAlwaysCallable test }
    ensures { (passes : T → Bool) → AnswersAs F.Fn test passes →
        result ≡ first_row_of T.row_of passes items.now }
{
    for item in items {
        if test(item) {
            return Some(item.row());
        }
    }
    None
}

/// That the numbers of locators are in the ranges of their types.
fn locators_in_range(locators: &[Locator])
    ensures { IsTrue (are_locators locators.now) }
{
    for locator in locators {
        let _width = locator.width();
    }
}

/// That the numbers of all items of a list are in the ranges of their types.
pub fn items_in_range<T: Item>(items: &[T])
    ensures { IsTrue (list_all T.is_in_range items.now) }
{
    for item in items {
        item.in_range();
    }
}
