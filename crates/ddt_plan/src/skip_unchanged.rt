//! Skips digits at which nothing changes, to the longest prefix that covers all zones and sites strictly below one.

ghost use Rattle.std.specs.Prelude.{◌≡◌, ◌-◌, ◌++◌, ◌<◌, ℕ, List, Some, IfSome, true, length};
ghost use Rattle.ddt_path.specs.laws.Member.{IsIn};
ghost use Rattle.ddt_register.specs.declared.register.Register.{Register};
ghost use Rattle.ddt_plan.specs.Blocks.{keys_of, pieces};
ghost use Rattle.ddt_plan.specs.Changes.{changes_at};
ghost use Rattle.ddt_plan.specs.Differing.{AreSides, IsInner, is_within};
ghost use Rattle.ddt_plan.specs.Fast.{AreInOrder, IsDivision};

use crate::differences::are_same;
use crate::sides::{Division, Side, Sides, items_below, side_inside};
use ddt_check::Accepted;
use ddt_path::{Prefix, Prefixed};

/// The longest prefix that covers all zones and sites strictly below a prefix in two registers, and what both have
/// there. Nothing changes elsewhere in the prefix, so a walk may continue there and skip the digits between. None if it
/// is the prefix itself, or if the two have different zones or different sites around the prefix.
pub fn skip_unchanged<'a>(
    before: &Accepted,
    after: &Accepted,
    whole: Prefix,
    sides: &Sides<'a>,
) -> Option<(Prefix, Sides<'a>)>
    requires { AreSides before.now after.now whole sides.now }
    ensures sides { IfSome result (λ at. AreSides before.now after.now at.0 at.1) }
    ensures longer { IfSome result (λ at. length whole < length at.0) }
    ensures same { IfSome result (λ at. (reading : _) → changes_at reading before.now after.now
        (pieces (161 - length whole) (keys_of before.now ++ keys_of after.now) whole)
        ≡ changes_at reading before.now after.now
        (pieces (161 - length at.0) (keys_of before.now ++ keys_of after.now) at.0)) }
{
    let (_earlier, _later) = (before.register(), after.register());
    match (&sides.before, &sides.after) {
        (Side::Divided(old), Side::Divided(new)) => {
            let inner = inner_of(whole, old, new)?;
            let within = Sides {
                before: side_inside(before, old, inner),
                after: side_inside(after, new, inner),
                differing: items_below(sides.differing, inner),
            };
            Some((inner, within))
        }
        _ => None,
    }
}

/// The longest prefix that covers all zones and sites of two divisions of a prefix. None if it is that prefix, or if
/// the two have different zones or different sites around it.
fn inner_of(whole: Prefix, old: &Division<'_>, new: &Division<'_>) -> Option<Prefix>
    requires old { (r : Register) × IsDivision r whole old.now }
    requires new { (r : Register) × IsDivision r whole new.now }
    ensures { (inner : List ℕ) → result ≡ Some inner → IsInner whole old.now new.now inner }
{
    let old_zones = cover_of(None, old.zones);
    let old_items = cover_of(old_zones, old.sites);
    let new_zones = cover_of(old_items, new.zones);
    let inner = cover_of(new_zones, new.sites)?;
    if inner.is_strictly_below(whole)
        && are_same(old.zone, new.zone)
        && are_same(old.site, new.site)
    {
        Some(inner)
    } else {
        None
    }
}

/// The longest prefix that covers the items, and `known` if it is Some. None if there is neither an item nor `known`.
fn cover_of<T: Prefixed + Copy>(known: Option<Prefix>, items: &[T]) -> Option<Prefix>
    requires { AreInOrder T.path items.now }
    ensures { ((a : _) → IsIn a items.now → is_within result (T.path a) ≡ true)
        × ((p : List ℕ) → is_within known p ≡ true → is_within result p ≡ true) }
{
    if items.is_empty() {
        return known;
    }
    let (first, last) = (items[0], items[items.len() - 1]);
    let all = first.prefix().longest_common(last.prefix());
    match known {
        Some(known) => Some(known.longest_common(all)),
        None => Some(all),
    }
}
