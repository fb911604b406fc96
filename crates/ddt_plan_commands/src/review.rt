//! The differences between two registers, apart from the lines of the blocks.

ghost use Rattle.std.specs.Prelude.{◌≡◌, ◌||◌, [], IfOk, IfErr, false};
ghost use Rattle.ddt_plan_commands.specs.Refusals.{IsWhyUnwritten};
ghost use Rattle.ddt_plan_commands.specs.Review.{IsReview, has_items as has_items_of, is_different as is_different_of};

use crate::command_error::CommandError;
use crate::effects::Effects;
use crate::referrals::has_outdated;
use ddt_check::Accepted;
use ddt_path::{Locator, Prefix, Xeid};
use ddt_plan::{
    GroupChange, ItemChanges, Reading, SortedPair, changes_of_sorted, group_changes, item_changes,
};
use std::alloc::Global;

/// The differences between two registers.
#[derive(Drop)]
pub struct Review {
    /// The effects of the changes of blocks.
    pub effects: Effects,
    /// The groups whose configuration changes.
    pub groups: Vec<GroupChange>,
    /// The zones, sites and groups that differ.
    pub items: ItemChanges,
    /// Whether a referral that caches may have is out of date.
    pub outdated: bool,
}

/// Finds the differences between two registers, and sorts the two, for whoever wants each change after it. They are
/// sorted last: what compares the groups, the items and the referrals has room of its own, and is done with it by then.
pub(crate) fn compare<'a>(
    alloc: Global,
    reading: Reading,
    before: &'a Accepted,
    after: &'a Accepted,
) -> Result<(Review, SortedPair<'a>), CommandError<'static>>
    ensures found { IfOk result (λ found. IsReview reading before.now after.now found.0) }
    ensures sorted { IfOk result (λ found. found.1 ≡ record { before = before.now; after = after.now }) }
    ensures refused { IfErr result (IsWhyUnwritten false) }
{
    let groups = group_changes(alloc, before, after)?;
    let items = item_changes(alloc, before, after)?;
    let outdated = has_outdated(alloc, before, after)?;
    let pair = SortedPair::of(alloc, before, after)?;
    let mut effects = Effects::default();
    changes_of_sorted(reading, &pair, everything(), &mut effects)?;
    let found = Review {
        effects,
        groups,
        items,
        outdated,
    };
    Ok((found, pair))
}

/// Returns whether anything differs.
pub(crate) fn is_different(found: &Review) -> bool
    ensures { result ≡ is_different_of found.now }
{
    found.effects.some || !found.groups.is_empty() || has_items(&found.items)
}

fn has_items(items: &ItemChanges) -> bool
    ensures { result ≡ has_items_of items.now }
{
    !items.zones.is_empty() || !items.sites.is_empty() || !items.groups.is_empty()
}

/// Returns the prefix that covers everything.
pub(crate) fn everything() -> Prefix
    ensures { result ≡ [] }
{
    let any = Xeid {
        iid: 0,
        address: Locator::V4(0),
    };
    Prefix::cut(any, 0)
}
