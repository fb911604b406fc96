//! The items of a register in a row. Rows rise within each list, so an item is found by binary search.

ghost use Rattle.std.specs.Prelude.{◌≡◌, ◌==◌, ◌<◌, ◌≤◌, ℕ, true, map, find};
ghost use Rattle.std.specs.List.{Contains};
ghost use Rattle.std.specs.Option.{option_copied};
ghost use Rattle.ddt_register.specs.Rows.{rise};
ghost use Rattle.ddt_check.specs.declared.fault.Rule.{Rule as ARule};
ghost use Rattle.ddt_check.specs.Rules.{broken};
ghost use Rattle.ddt_review.specs.Faults.Told.{IsInRow};

use ddt_register::{Group, Item, Register, Site, Zone};

/// The items in a row. In a row of a register at most one of them is Some.
#[derive(Clone, Copy)]
pub struct ItemsInRow<'a> {
    pub zone: Option<&'a Zone>,
    pub site: Option<&'a Site>,
    pub group: Option<&'a Group>,
}

impl<'a> ItemsInRow<'a> {
    /// The items in a row of a register.
    pub fn of(register: &'a Register, row: u32) -> ItemsInRow<'a>
        ensures { IsInRow register.now row result }
    {
        ItemsInRow {
            zone: item_in_row(register.zones.as_slice(), row),
            site: item_in_row(register.sites.as_slice(), row),
            group: item_in_row(register.groups.as_slice(), row),
        }
    }
}

/// The item in a row.
fn item_in_row<T: Item>(items: &[T], row: u32) -> Option<&T>
    requires { rise 0 (map T.row_of items.now) ≡ true }
    ensures { option_copied result ≡ find (λ x. T.row_of x == row) items.now }
{
    let at = items.partition_point(|item| item.row() < row);
    if at < items.len() {
        let item = &items[at];
        if item.row() == row {
            return Some(item);
        }
    }
    None
}

/// The row after all rows that may break a rule: one more than the last row; 1 if there is no item.
pub fn end_of_rows(register: &Register) -> u32
    ensures { (rule : ARule) (row : ℕ) → broken register.now rule row ≡ true → row < result }
{
    let zones = last_row(register.zones.as_slice());
    let sites = last_row(register.sites.as_slice());
    let groups = last_row(register.groups.as_slice());
    zones.max(sites).max(groups) + 1
}

/// The row of the last item; 0 if there is none.
fn last_row<T: Item>(items: &[T]) -> u32
    requires { rise 0 (map T.row_of items.now) ≡ true }
    ensures last { (x : T) → Contains items.now x → T.row_of x ≤ result }
    ensures bound { result ≤ 65535 }
{
    match items.last() {
        Some(item) => item.row(),
        None => 0,
    }
}
