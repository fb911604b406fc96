//! The rule on the locators of groups. If the fingerprints of all locators are different, no two groups share one. Else
//! the first locators of the groups are sorted, then the second ones, and so on, as small cells in a stack frame. In
//! each such column a locator is found by binary search.

ghost use Rattle.std.specs.Prelude.{◌≡◌, ◌<◌, ◌≤◌, ℕ, true, nat_lt, IsPermutation, map, drop, length};
ghost use Rattle.std.specs.List.{list_any};
ghost use Rattle.std.specs.Option.{option_map};
ghost use Rattle.ddt_register.specs.declared.register.Register.{Register as ARegister};
ghost use Rattle.ddt_register.specs.Rows.{rise, group_rows};
ghost use Rattle.ddt_check.specs.Rules.{IsLeastRow, broken, group_at};
ghost use Rattle.ddt_check.specs.Order.{IsInOrder};
ghost use Rattle.ddt_check.specs.Columns.{locator_pair as locator_pair_of, column_pair as column_pair_of};
ghost use Rattle.ddt_check.specs.Columns.{cell_of, cell_key, slot_of, AreMarked};
ghost use Rattle.ddt_check.specs.Columns.{first_in as first_of, meets_at, meets_in, is_met, is_wrong_alone as is_wrong_of};

use crate::fault::Rule;
use crate::rules::fingerprints::are_told_apart;
use crate::rules::{least_row, lower_of};
use ddt_path::{Locator, MOST_LOCATORS, are_distinct};
use ddt_register::Group;
use std::alloc::Global;

/// A locator as its family and its number.
fn locator_pair(l: Locator) -> (u8, u128)
    ensures { result ≡ locator_pair_of l }
{
    match l {
        Locator::V4(number) => (4, u128::from(number)),
        Locator::V6(number) => (6, number),
    }
}

/// A group's locator in a column; the pair of zeros where it has none.
fn column_pair(g: &Group, column: usize) -> (u8, u128)
    ensures { result ≡ column_pair_of column g.now }
{
    match g.locators.as_slice().get(column) {
        Some(l) => locator_pair(*l),
        None => (0, 0),
    }
}

/// A group's locator in one column as its family and its number, zeros if it has none there; and the group's row. Cells
/// are sorted in place of the groups, which aren't moved.
#[derive(Clone, Copy)]
struct Cell {
    number: u128,
    family: u8,
    row: u32,
}

impl Cell {
    /// The value of each cell in a stack frame before the cells of a column are written.
    const EMPTY: Cell = Cell {
        number: 0,
        family: 0,
        row: 0,
    };

    ghost use Rattle.std.specs.Prelude.{◌≡◌};
    ghost use Rattle.std.specs.Ordering.{nat_cmp, is_lt};
    ghost use Rattle.std.specs.Cmp.Lexicographic.{slice_cmp};
    ghost use Rattle.ddt_path.specs.Covers.{is_same_path};
    ghost use Rattle.ddt_check.specs.Columns.{key_list, cell_of, cell_pair, cell_key};

    fn of(g: &Group, column: usize) -> Cell
        ensures { result ≡ cell_of column g.now }
    {
        let (family, number) = column_pair(g, column);
        Cell {
            number,
            family,
            row: g.row,
        }
    }

    /// By the family and the number, then by the row.
    fn sort_key(&self) -> ((u8, u128), u32)
        ensures { result ≡ (cell_pair self.now, self.now.row) }
    {
        ((self.family, self.number), self.row)
    }

    fn is_before(&self, key: (u8, u128)) -> bool
        ensures { result ≡ is_lt (slice_cmp nat_cmp (cell_key self.now) (key_list key)) }
    {
        self.family < key.0 || (self.family == key.0 && self.number < key.1)
    }

    fn has_key(&self, key: (u8, u128)) -> bool
        ensures { result ≡ is_same_path (cell_key self.now) (key_list key) }
    {
        self.family == key.0 && self.number == key.1
    }
}

/// The number of marks in a large stack frame. A mark is set if some locator of the column has that slot.
const MARKS: usize = 524_288;

/// The slot of a locator's number: the sum of 18 digits of each of its halves.
fn slot(number: u128) -> usize
    ensures { result ≡ slot_of number }
{
    (number % 262_144 + (number >> 64) % 262_144) as usize
}

/// Sets the marks of a column's locators, and no others. If there are few marks, or none, a slot may be without a mark.
fn mark_column(marks: &mut [bool], cells: &[Cell])
    ensures { AreMarked marks.new cells.now }
{
    marks.fill(false);
    for cell in cells {
        let at = slot(cell.number);
        if at < marks.len() {
            marks[at] = true;
        }
    }
}

/// Writes the cells of a column, in the order of the groups.
fn write_column(cells: &mut [Cell], groups: &[Group], column: usize)
    requires { length cells.old ≡ length groups.now }
    ensures { cells.new ≡ map (cell_of column) groups.now }
{
    for at in 0..cells.len() {
        cells[at] = Cell::of(&groups[at], column);
    }
}

/// The cells of a column, sorted by their locators, then by their rows.
fn sort_column(cells: &mut [Cell], groups: &[Group], column: usize)
    requires { length cells.old ≡ length groups.now }
    ensures length { length cells.new ≡ length groups.now }
    ensures moved { IsPermutation (map (cell_of column) groups.now) cells.new }
    ensures sorted { IsInOrder cell_key (λ c. c.row) cells.new }
{
    write_column(cells, groups, column);
    cells.sort_unstable_by_key(|cell| cell.sort_key());
}

/// The row of the first group that has a locator in the column, by binary search.
fn searched(cells: &[Cell], l: Locator) -> Option<u32>
    requires { IsInOrder cell_key (λ c. c.row) cells.now }
    ensures { (r : ARegister) (column : ℕ) → IsPermutation (map (cell_of column) r.groups) cells.now
        → result ≡ option_map (λ g. g.row) (first_of r column l) }
{
    let key = locator_pair(l);
    let at = cells.partition_point(|cell| cell.is_before(key));
    if at < cells.len() && cells[at].has_key(key) {
        return Some(cells[at].row);
    }
    None
}

/// The row of the first group that has a locator in the column. A mark that isn't set answers for most locators that no
/// group has.
fn first_in(cells: &[Cell], marks: &[bool], l: Locator) -> Option<u32>
    requires sorted { IsInOrder cell_key (λ c. c.row) cells.now }
    requires marked { AreMarked marks.now cells.now }
    ensures { (r : ARegister) (column : ℕ) → IsPermutation (map (cell_of column) r.groups) cells.now
        → result ≡ option_map (λ g. g.row) (first_of r column l) }
{
    let (_family, number) = locator_pair(l);
    let at = slot(number);
    if at < marks.len() && !marks[at] {
        return None;
    }
    searched(cells, l)
}

/// The later of the group's row and the first group row that has the locator in the column; None if they are one row.
fn meeting_row(cells: &[Cell], marks: &[bool], g: &Group, l: Locator) -> Option<u32>
    requires sorted { IsInOrder cell_key (λ c. c.row) cells.now }
    requires marked { AreMarked marks.now cells.now }
    ensures { (r : ARegister) (column : ℕ) → IsPermutation (map (cell_of column) r.groups) cells.now
        → IsLeastRow (meets_at r column g.now l) result }
{
    match first_in(cells, marks, l) {
        Some(row) if row != g.row => Some(row.max(g.row)),
        _ => None,
    }
}

/// The locators from an index on.
fn locators_from(locators: &[Locator], place: usize) -> &[Locator]
    ensures { result.now ≡ drop place locators.now }
{
    if place < locators.len() {
        &locators[place..]
    } else {
        &[]
    }
}

/// The least row at which the group shares a locator with another: the group has it in the column or a later one, the
/// other in the column.
fn least_meeting(cells: &[Cell], marks: &[bool], column: usize, g: &Group) -> Option<u32>
    requires sorted { IsInOrder cell_key (λ c. c.row) cells.now }
    requires marked { AreMarked marks.now cells.now }
    ensures { (r : ARegister) → IsPermutation (map (cell_of column) r.groups) cells.now
        → IsLeastRow (meets_in r column g.now) result }
{
    let mut least = None;
    let locators = locators_from(g.locators.as_slice(), column);
    for l in locators {
        least = lower_of(least, meeting_row(cells, marks, g, *l));
    }
    least
}

/// The least row of a group that shares a locator with an earlier one: one of them has it in the column, the other in
/// the column or a later one.
fn shared(cells: &[Cell], marks: &[bool], groups: &[Group], column: usize) -> Option<u32>
    requires sorted { IsInOrder cell_key (λ c. c.row) cells.now }
    requires marked { AreMarked marks.now cells.now }
    requires moved { IsPermutation (map (cell_of column) groups.now) cells.now }
    ensures { (r : ARegister) → r.groups ≡ groups.now → IsLeastRow (is_met r column) result }
{
    let mut least = None;
    for g in groups {
        least = lower_of(least, least_meeting(cells, marks, column, g));
    }
    least
}

/// Whether a group has no locator, more than 8, or one twice.
fn is_wrong_alone(g: &Group) -> bool
    ensures { result ≡ is_wrong_of g.now }
{
    let locators = g.locators.as_slice();
    (locators.is_empty() || locators.len() > MOST_LOCATORS) || !are_distinct(locators)
}

/// The least row of a group with no locator, more than 8, or one twice.
fn wrong_alone(groups: &[Group]) -> Option<u32>
    ensures { (r : ARegister) → r.groups ≡ groups.now → IsLeastRow (λ n. group_at r n is_wrong_of) result }
{
    least_row(groups, |g| is_wrong_alone(g))
}

/// Whether a group has a locator in the column.
fn has_column(groups: &[Group], column: usize) -> bool
    ensures { result ≡ list_any (λ g. nat_lt column (length g.locators)) groups.now }
{
    groups.iter().any(|g| column < g.locators.as_slice().len())
}

/// The least row of a group with no locator, more than 8, or one that isn't new, by a cell for each group.
fn wrong_by_cells(cells: &mut [Cell], marks: &mut [bool], groups: &[Group]) -> Option<u32>
    requires { length cells.old ≡ length groups.now }
    ensures { (r : ARegister) → r.groups ≡ groups.now → IsLeastRow (broken r Rule.Locators) result }
{
    let mut least = wrong_alone(groups);
    for column in 0..MOST_LOCATORS {
        if !has_column(groups, column) {
            return least;
        }
        sort_column(cells, groups, column);
        mark_column(marks, cells);
        least = lower_of(least, shared(cells, marks, groups, column));
    }
    least
}

/// The same for at most 4,096 groups, by cells in a small stack frame.
#[inline(never)]
fn wrong_of_few(groups: &[Group]) -> Option<u32>
    requires { length groups.now ≤ 4096 }
    ensures { (r : ARegister) → r.groups ≡ groups.now → IsLeastRow (broken r Rule.Locators) result }
{
    let mut cells = [Cell::EMPTY; 4_096];
    wrong_by_cells(&mut cells[..groups.len()], &mut [], groups)
}

/// The same for at most 65,535 groups, by cells in a large stack frame.
#[inline(never)]
fn wrong_of_many(groups: &[Group]) -> Option<u32>
    requires { length groups.now ≤ 65535 }
    ensures { (r : ARegister) → r.groups ≡ groups.now → IsLeastRow (broken r Rule.Locators) result }
{
    let mut cells = [Cell::EMPTY; 65_535];
    let mut marks = [false; MARKS];
    wrong_by_cells(&mut cells[..groups.len()], &mut marks, groups)
}

/// The same, by the smaller of both stack frames that has a cell for each group.
fn wrong_by_columns(groups: &[Group]) -> Option<u32>
    requires { length groups.now ≤ 65535 }
    ensures { (r : ARegister) → r.groups ≡ groups.now → IsLeastRow (broken r Rule.Locators) result }
{
    if groups.len() <= 4_096 {
        wrong_of_few(groups)
    } else {
        wrong_of_many(groups)
    }
}

/// The least row of a group with no locator, more than 8, or one that isn't new. If the fingerprints of all locators
/// are different, no two groups share one, and no column is sorted.
pub fn wrong_locators(alloc: Global, groups: &[Group]) -> Option<u32>
    requires { rise 0 (group_rows groups.now) ≡ true }
    ensures { (r : ARegister) → r.groups ≡ groups.now → IsLeastRow (broken r Rule.Locators) result }
{
    if are_told_apart(alloc, groups) {
        wrong_alone(groups)
    } else {
        wrong_by_columns(groups)
    }
}
