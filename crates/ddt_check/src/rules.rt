//! The rules, each as the least row that breaks it, over entries that are sorted by prefix or name, then by row.
//! The duplicates of an item are then beside it, and a name, a locator or a zone is found by binary search.

ghost use Rattle.std.specs.Prelude.{◌≡◌, Bool, List, min, Some, IsPermutation, if◌then◌else◌};
ghost use Rattle.std.specs.Option.{option_map_or};
ghost use Rattle.ddt_path.specs.Matching.{AnswersAs};
ghost use Rattle.ddt_check.specs.Rules.{IsLeastRow, item_at};

use ddt_register::Item;

pub mod duplicates;
pub mod fingerprints;
pub mod locators;
pub mod sites;
pub mod zones;

/// The lower of a row and another, if there is one.
fn lower(least: Option<u32>, row: u32) -> u32
    ensures { result ≡ option_map_or (λ l. min l row) least row }
{
    match least {
        Some(least) => least.min(row),
        None => row,
    }
}

/// The lower of two rows, where there are any.
fn lower_of(a: Option<u32>, b: Option<u32>) -> Option<u32>
    ensures { result ≡ option_map_or (λ row. Some (option_map_or (λ l. min l row) b row)) a b }
{
    match a {
        Some(row) => Some(lower(b, row)),
        None => b,
    }
}

/// The lower of both rows if `counts`, else the first one.
fn lower_if(least: Option<u32>, counts: bool, row: u32) -> Option<u32>
    ensures { result ≡ (if counts then Some (option_map_or (λ l. min l row) least row) else least) }
{
    if counts {
        Some(lower(least, row))
    } else {
        least
    }
}

/// The least row of the items that pass a test; None where none does.
fn least_row<T: Item, F: Fn(&T) -> bool>(items: &[T], test: F) -> Option<u32>
    requires { F.IsAlwaysCallable test }
    ensures { (passes : T → Bool) (all : List T) → AnswersAs F.Fn test passes → IsPermutation all items.now
        → IsLeastRow (item_at T.row_of passes all) result }
{
    let mut least = None;
    for item in items {
        if test(item) {
            least = Some(lower(least, item.row()));
        }
    }
    least
}
