//! The effects of changes on identifiers, counted as the changes are found.

ghost use Rattle.std.specs.Prelude.{◌≡◌};
ghost use Rattle.ddt_plan.specs.Changes.{are_same_servers as are_same_servers_of};
ghost use Rattle.ddt_plan_commands.specs.Effects.{
  CountsEffect,
  are_other_servers as are_other_servers_of,
  becomes_hole as becomes_hole_of,
  changes_servers as changes_servers_of,
  is_registered as is_registered_of,
  loses_registration as loses_registration_of,
  servers_in as servers_in_of,
};
ghost use Rattle.ddt_plan_commands.specs.Written.{is_hole as is_hole_of, was_negative as was_negative_of};

use crate::block_lines::{LineFault, is_hole};
use crate::extent::Extent;
use ddt_path::{LocatorSet, Outcome};
use ddt_plan::{Change, Sink};

/// The effects of changes.
#[derive(Clone, Copy, Default, PartialEq, Eq)]
pub struct Effects {
    /// Whether there was a change.
    pub some: bool,
    /// Whether one was a delegation hole before, or lay in a site that isn't registered.
    pub negative: bool,
    /// Blocks that were delegated and are holes now.
    pub holes: Extent,
    /// Blocks that were registered and lie in a site that isn't registered now.
    pub unregistered: Extent,
    /// Blocks whose Map-Servers changed.
    pub moved: Extent,
}

fn was_negative(change: &Change) -> bool
    ensures { result ≡ was_negative_of change.now }
{
    !is_registered(&change.before)
}

fn is_registered(outcome: &Outcome) -> bool
    ensures { result ≡ is_registered_of outcome.now }
{
    matches!(outcome, Outcome::Registered { .. })
}

fn becomes_hole(change: &Change) -> bool
    ensures { result ≡ becomes_hole_of change.now }
{
    !is_hole(&change.before) && is_hole(&change.after)
}

fn loses_registration(change: &Change) -> bool
    ensures { result ≡ loses_registration_of change.now }
{
    is_registered(&change.before) && !(is_registered(&change.after) || is_hole(&change.after))
}

fn changes_servers(change: &Change) -> bool
    ensures { result ≡ changes_servers_of change.now }
{
    are_other_servers(servers_in(&change.before), servers_in(&change.after))
}

fn servers_in(outcome: &Outcome) -> Option<LocatorSet>
    ensures { result ≡ servers_in_of outcome.now }
{
    match outcome {
        Outcome::Registered { servers, .. } | Outcome::NotRegistered { servers, .. } => {
            Some(*servers)
        }
        Outcome::Hole { .. } => None,
    }
}

fn are_other_servers(before: Option<LocatorSet>, after: Option<LocatorSet>) -> bool
    ensures { result ≡ are_other_servers_of before after }
{
    match (before, after) {
        (Some(before), Some(after)) => !are_same_servers(&before, &after),
        _ => false,
    }
}

/// Returns whether both sets have the same locators in the same order.
pub(crate) fn are_same_servers(before: &LocatorSet, after: &LocatorSet) -> bool
    ensures { result ≡ are_same_servers_of before.now after.now }
{
    before.as_slice() == after.as_slice()
}

impl Sink<Change> for Effects {
    type Refusal = LineFault;

    ghost takes = { CountsEffect };

    fn give(&mut self, change: Change) -> Result<(), LineFault> {
        let prefix = change.prefix;
        *self = Effects {
            some: true,
            negative: self.negative || was_negative(&change),
            holes: self.holes.with(becomes_hole(&change), prefix),
            unregistered: self.unregistered.with(loses_registration(&change), prefix),
            moved: self.moved.with(changes_servers(&change), prefix),
        };
        Ok(())
    }
}
