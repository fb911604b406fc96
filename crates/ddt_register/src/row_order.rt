//! The rows of the items of a register: they rise within a list, and none stands in two lists.

ghost use Rattle.std.specs.Prelude.{◌≡◌, ◌&&◌, IsTrue, map};
ghost use Rattle.ddt_register.specs.Rows.{rise, are_apart as are_apart_of};

use crate::item::Item;
use crate::register::MOST_ROWS;

/// Whether the rows of a list are 1 to 65,535 and rise.
pub fn are_rising<T: Item>(items: &[T]) -> bool
    ensures { result ≡ rise 0 (map T.row_of items.now) }
{
    let mut last = 0;
    for item in items {
        let row = item.row();
        if row <= last || row > MOST_ROWS {
            return false;
        }
        last = row;
    }
    true
}

/// Whether no row of one rising list stands in the other.
pub fn are_apart<A: Item, B: Item>(first: &[A], second: &[B]) -> bool
    requires first { IsTrue (rise 0 (map A.row_of first.now)) }
    requires second { IsTrue (rise 0 (map B.row_of second.now)) }
    ensures { result ≡ are_apart_of (map A.row_of first.now) (map B.row_of second.now) }
{
    let mut i = 0;
    let mut k = 0;
    while i < first.len() && k < second.len() {
        let (a, b) = (first[i].row(), second[k].row());
        if a == b {
            return false;
        }
        if a < b {
            i += 1;
        } else {
            k += 1;
        }
    }
    true
}
