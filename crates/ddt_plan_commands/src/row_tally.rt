//! The number of rows that are lost, gained or changed.

ghost use Rattle.std.specs.Prelude.{◌≡◌};
ghost use Rattle.ddt_plan_commands.specs.Review.{how_many, is_gained, is_kept, is_lost, tally_of};

use ddt_plan::ItemChange;

/// The number of rows of one kind that are lost, gained and changed.
#[derive(Clone, Copy, PartialEq, Eq)]
pub struct RowTally {
    /// Rows that only the earlier register has.
    pub lost: usize,
    /// Rows that only the later register has.
    pub gained: usize,
    /// Rows that both registers have and that differ.
    pub changed: usize,
}

/// Counts the changes of each kind.
pub(crate) fn count_rows<K, V>(changes: &[ItemChange<K, V>]) -> RowTally
    ensures { result ≡ tally_of changes.now }
{
    RowTally {
        lost: count_lost(changes),
        gained: count_gained(changes),
        changed: count_changed(changes),
    }
}

/// Returns the number of rows that only the earlier register has.
fn count_lost<K, V>(changes: &[ItemChange<K, V>]) -> usize
    ensures { result ≡ how_many is_lost changes.now }
{
    let lost = changes
        .iter()
        .filter(|change| is_gone(&change.before, &change.after));
    lost.count()
}

/// Returns the number of rows that only the later register has.
fn count_gained<K, V>(changes: &[ItemChange<K, V>]) -> usize
    ensures { result ≡ how_many is_gained changes.now }
{
    let gained = changes
        .iter()
        .filter(|change| is_gone(&change.after, &change.before));
    gained.count()
}

/// Returns the number of rows that both registers have and that differ.
fn count_changed<K, V>(changes: &[ItemChange<K, V>]) -> usize
    ensures { result ≡ how_many is_kept changes.now }
{
    let changed = changes
        .iter()
        .filter(|change| are_both(&change.before, &change.after));
    changed.count()
}

fn is_gone<V>(before: &Option<V>, after: &Option<V>) -> bool
    ensures { result ≡ is_lost before.now after.now }
{
    before.is_some() && after.is_none()
}

fn are_both<V>(before: &Option<V>, after: &Option<V>) -> bool
    ensures { result ≡ is_kept before.now after.now }
{
    before.is_some() && after.is_some()
}
