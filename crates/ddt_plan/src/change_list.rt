//! What a change of a register changes.

ghost use Rattle.std.specs.Prelude.{◌≡◌, ◌≢◌, List, Err, IfOk};
ghost use Rattle.ddt_plan.specs.Changes.{AreChanges};
ghost use Rattle.ddt_plan.specs.Sinks.{HasGiven};
ghost use Rattle.ddt_plan.specs.declared.change_list.Change.{Change as AChange};

use crate::differences::differences;
use crate::outcomes::Reading;
use crate::sides::{Sides, SortedItems, items_below, side_at, sort_items};
use crate::sink::{PlanFault, Sink};
use crate::walk::walk_both;
use ddt_check::Accepted;
use ddt_path::{Outcome, Prefix};
use std::alloc::{AllocError, Global};
use std::marker::Model;

/// Identifiers whose assignment changes.
#[derive(Clone, Copy, Debug, PartialEq, Eq)]
pub struct Change {
    /// The prefix that covers them, and no others.
    pub prefix: Prefix,
    /// What each of them was assigned.
    pub before: Outcome,
    /// What each of them is assigned now.
    pub after: Outcome,
}

/// An earlier register and a later one, with the zones and the sites of each in the order of their prefixes, and the
/// prefixes at which the two differ. Contracts see the two registers.
#[derive(Drop)]
pub struct SortedPair<'a> {
    before: &'a Accepted,
    after: &'a Accepted,
    earlier: SortedItems,
    later: SortedItems,
    differing: Vec<Prefix>,
}

impl<'a> Model for SortedPair<'a> {
    ghost use Rattle.std.specs.Prelude.{List, ℕ};
    ghost use Rattle.ddt_plan.specs.Differing.{AreDifferences, BothRegisters};
    ghost use Rattle.ddt_plan.specs.Fast.{AreItemsOf};

    ghost Value = { BothRegisters };

    ghost view = { λ p. record { before = p.before.now; after = p.after.now } };

    ghost invariant = { λ p. AreItemsOf p.before.now p.earlier × AreItemsOf p.after.now p.later
        × ((q : List ℕ) → AreDifferences p.before.now p.after.now q p.differing.items) };
}

impl<'a> SortedPair<'a> {
    /// Sorts two registers, once for any number of calls of `changes_of_sorted`. Fails only if out of memory.
    pub fn of(
        alloc: Global,
        before: &'a Accepted,
        after: &'a Accepted,
    ) -> Result<SortedPair<'a>, AllocError>
        ensures { IfOk result (λ pair. pair ≡ record { before = before.now; after = after.now }) }
    {
        let earlier = sort_items(alloc, before)?;
        let later = sort_items(alloc, after)?;
        let differing = differences(alloc, before, after, &earlier, &later)?;
        Ok(SortedPair {
            before,
            after,
            earlier,
            later,
            differing,
        })
    }

    /// The earlier register.
    pub fn before(&self) -> &'a Accepted
        ensures { result.now ≡ self.now.before }
    {
        self.before
    }

    /// The later register.
    pub fn after(&self) -> &'a Accepted
        ensures { result.now ≡ self.now.after }
    {
        self.after
    }
}

/// Gives a sink all changes from one register to another at identifiers that a prefix covers, in the order of their
/// digits. An identifier whose two assignments differ by this reading is in exactly one change, which has its two
/// assignments; any other identifier is in none. A change is a block of the zones and sites of both registers, so
/// neighbours that change in the same way are given one by one.
///
/// The first change that the sink refuses ends the call, with the sink's refusal in `PlanFault::Refused`. It ends with
/// `PlanFault::Memory` if there is no memory to sort the registers. Either way the sink has taken the first of the
/// changes, in order.
pub fn changes<S: Sink<Change>>(
    alloc: Global,
    reading: Reading,
    before: &Accepted,
    after: &Accepted,
    inside: Prefix,
    sink: &mut S,
) -> Result<(), PlanFault<S::Refusal>>
    ensures { (all : List AChange) × AreChanges reading before.now after.now inside all
        × HasGiven S.takes sink.old all result sink.new }
{
    match SortedPair::of(alloc, before, after) {
        Ok(pair) => changes_of_sorted(reading, &pair, inside, sink),
        Err(_refused) => Err(PlanFault::Memory),
    }
}

/// Gives a sink the changes that `changes` gives it, from two registers that are sorted already.
///
/// The first change that the sink refuses ends the call, with the sink's refusal in `PlanFault::Refused`; the sink has
/// taken all changes before that one. Nothing else is refused: `PlanFault::Memory` is never the answer.
pub fn changes_of_sorted<S: Sink<Change>>(
    reading: Reading,
    pair: &SortedPair<'_>,
    inside: Prefix,
    sink: &mut S,
) -> Result<(), PlanFault<S::Refusal>>
    ensures given { (all : List AChange) × AreChanges reading pair.now.before pair.now.after inside all
        × HasGiven S.takes sink.old all result sink.new }
    ensures own { result ≢ Err PlanFault.Memory }
{
    let (before, after) = (pair.before, pair.after);
    let sides = Sides {
        before: side_at(before, &pair.earlier, inside),
        after: side_at(after, &pair.later, inside),
        differing: items_below(pair.differing.as_slice(), inside),
    };
    walk_both(reading, before, after, inside, &sides, sink)
}
