//! Sinks that count the items that they are given, and don't keep them.

ghost use Rattle.std.specs.Prelude.{◌≡◌, ◌+◌, MatchResult};
ghost use Rattle.ddt_plan.specs.Counts.{CountsBlock, CountsChange, IsFull, count_of, counted};

use crate::block_list::Block;
use crate::change_list::Change;
use crate::sink::Sink;
use ddt_path::Outcome;

/// The number of outcomes of each kind.
#[derive(Clone, Copy, Debug, Default, PartialEq, Eq)]
pub struct OutcomeCounts {
    pub holes: u64,
    pub registered: u64,
    pub not_registered: u64,
}

/// The number of outcomes of each kind before changes, and after them.
#[derive(Clone, Copy, Debug, Default, PartialEq, Eq)]
pub struct ChangeCounts {
    pub before: OutcomeCounts,
    pub after: OutcomeCounts,
}

/// A count is 18446744073709551615 already.
#[derive(Clone, Copy, Debug, PartialEq, Eq)]
pub struct CountFull;

impl OutcomeCounts {
    /// The counts with one more outcome of this kind.
    fn with(self, outcome: &Outcome) -> Result<OutcomeCounts, CountFull>
        ensures { MatchResult result (λ counts. counts ≡ counted self outcome.now)
            (λ full. IsFull (count_of self outcome.now)) }
    {
        match outcome {
            Outcome::Registered { .. } => Ok(OutcomeCounts {
                registered: one_more(self.registered)?,
                ..self
            }),
            Outcome::NotRegistered { .. } => Ok(OutcomeCounts {
                not_registered: one_more(self.not_registered)?,
                ..self
            }),
            Outcome::Hole { .. } => Ok(OutcomeCounts {
                holes: one_more(self.holes)?,
                ..self
            }),
        }
    }
}

fn one_more(count: u64) -> Result<u64, CountFull>
    ensures { MatchResult result (λ more. more ≡ count + 1) (λ full. IsFull count) }
{
    count.checked_add(1).ok_or(CountFull)
}

/// Counts the outcomes of blocks. Refused if the count of a kind is full; no count changes then.
impl Sink<Block> for OutcomeCounts {
    type Refusal = CountFull;

    ghost takes = { CountsBlock };

    fn give(&mut self, block: Block) -> Result<(), CountFull> {
        *self = self.with(&block.outcome)?;
        Ok(())
    }
}

/// Counts the outcomes of changes. Refused if the count of a kind is full; no count changes then.
impl Sink<Change> for ChangeCounts {
    type Refusal = CountFull;

    ghost takes = { CountsChange };

    fn give(&mut self, change: Change) -> Result<(), CountFull> {
        let before = self.before.with(&change.before)?;
        let after = self.after.with(&change.after)?;
        *self = ChangeCounts { before, after };
        Ok(())
    }
}
