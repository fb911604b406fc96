//! A walk down the digits of prefixes, from one half to the next, that gives a sink the blocks or the changes.

ghost use Rattle.std.specs.Prelude.{◌≡◌, ◌≢◌, ◌-◌, ◌++◌, ◌∷◌, [], map, length, Err, IsTrue};
ghost use Rattle.std.specs.List.{filter};
ghost use Rattle.ddt_plan.specs.Blocks.{keys_of, pieces};
ghost use Rattle.ddt_plan.specs.Changes.{block_at, changes_at, is_apart};
ghost use Rattle.ddt_plan.specs.Differing.{AreSides};
ghost use Rattle.ddt_plan.specs.Fast.{IsSide, both_settled as both_settled_of};
ghost use Rattle.ddt_plan.specs.Sinks.{HasGiven};

use crate::block_list::Block;
use crate::change_list::Change;
use crate::differences::are_same;
use crate::outcomes::{Reading, is_same_outcome};
use crate::prefix_halves::half;
use crate::sides::{Side, Sides, sides_below, sides_of_both_below};
use crate::sink::{PlanFault, Sink, give};
use crate::skip_unchanged::skip_unchanged;
use ddt_check::Accepted;
use ddt_path::{Outcome, Prefix};

/// Gives the blocks of a register inside a prefix. It goes 161 calls deep at most.
pub fn walk<S: Sink<Block>>(
    accepted: &Accepted,
    whole: Prefix,
    side: &Side<'_>,
    sink: &mut S,
) -> Result<(), PlanFault<S::Refusal>>
    requires { IsSide accepted.now whole side.now }
    ensures { HasGiven S.takes sink.old
        (map (block_at accepted.now) (pieces (161 - length whole) (keys_of accepted.now) whole)) result sink.new }
{
    match side {
        Side::Settled(outcome) => give(
            sink,
            Block {
                prefix: whole,
                outcome: *outcome,
            },
        ),
        Side::Divided(division) => {
            let (low, high) = sides_below(accepted, whole, division);
            walk(accepted, half(whole, false), &low, sink)?;
            walk(accepted, half(whole, true), &high, sink)
        }
    }
}

/// Gives what changes inside a prefix from one register to another. It goes 161 calls deep at most. Only the sink
/// refuses.
pub fn walk_both<S: Sink<Change>>(
    reading: Reading,
    before: &Accepted,
    after: &Accepted,
    whole: Prefix,
    sides: &Sides<'_>,
    sink: &mut S,
) -> Result<(), PlanFault<S::Refusal>>
    requires { AreSides before.now after.now whole sides.now }
    ensures given { HasGiven S.takes sink.old (changes_at reading before.now after.now
        (pieces (161 - length whole) (keys_of before.now ++ keys_of after.now) whole)) result sink.new }
    ensures own { result ≢ Err PlanFault.Memory }
{
    match both_settled(sides) {
        Some((earlier, later)) => give_if_apart(reading, whole, earlier, later, sink),
        None => {
            if nothing_changes(before, after, whole, sides) {
                return Ok(());
            }
            if let Some((inner, within)) = skip_unchanged(before, after, whole, sides) {
                return walk_both(reading, before, after, inner, &within, sink);
            }
            let lower = half(whole, false);
            let upper = half(whole, true);
            let (low, high) = sides_of_both_below(before, after, whole, lower, upper, sides);
            walk_both(reading, before, after, lower, &low, sink)?;
            walk_both(reading, before, after, upper, &high, sink)
        }
    }
}

/// Whether both registers have the same zones and sites strictly below a prefix, and the same zone and the same site
/// around it. False where either has nothing below it.
fn nothing_changes(before: &Accepted, after: &Accepted, whole: Prefix, sides: &Sides<'_>) -> bool
    requires { AreSides before.now after.now whole sides.now }
    ensures { IsTrue result → (reading : _) → changes_at reading before.now after.now
        (pieces (161 - length whole) (keys_of before.now ++ keys_of after.now) whole) ≡ [] }
{
    let (_old, _new) = (before.register(), after.register());
    match (&sides.before, &sides.after) {
        (Side::Divided(old), Side::Divided(new)) => sides.differing.is_empty()
            && are_same(old.zone, new.zone)
            && are_same(old.site, new.site),
        _ => false,
    }
}

fn both_settled(sides: &Sides<'_>) -> Option<(Outcome, Outcome)>
    ensures { result ≡ both_settled_of sides.now }
{
    match (&sides.before, &sides.after) {
        (Side::Settled(before), Side::Settled(after)) => Some((*before, *after)),
        _ => None,
    }
}

/// Gives a change, if it is one. Only the sink refuses.
fn give_if_apart<S: Sink<Change>>(
    reading: Reading,
    prefix: Prefix,
    before: Outcome,
    after: Outcome,
    sink: &mut S,
) -> Result<(), PlanFault<S::Refusal>>
    ensures given { HasGiven S.takes sink.old
        (filter (is_apart reading) (record { prefix = prefix; before = before; after = after } ∷ [])) result sink.new }
    ensures own { result ≢ Err PlanFault.Memory }
{
    if is_same_outcome(reading, &before, &after) {
        return Ok(());
    }
    give(
        sink,
        Change {
            prefix,
            before,
            after,
        },
    )
}
