//! What a register assigns, block by block.

ghost use Rattle.std.specs.Prelude.{List};
ghost use Rattle.ddt_plan.specs.Changes.{AreBlocks};
ghost use Rattle.ddt_plan.specs.Sinks.{HasGiven};
ghost use Rattle.ddt_plan.specs.declared.block_list.Block.{Block as ABlock};

use crate::sides::{side_at, sort_items};
use crate::sink::{PlanFault, Sink};
use crate::walk::walk;
use ddt_check::Accepted;
use ddt_path::{Outcome, Prefix};
use std::alloc::Global;

/// Identifiers that are assigned the same, and what.
#[derive(Clone, Copy, Debug, PartialEq, Eq)]
pub struct Block {
    /// The prefix that covers them, and no others.
    pub prefix: Prefix,
    /// The assignment of each of them.
    pub outcome: Outcome,
}

/// Gives a sink the identifiers that a prefix covers, in blocks, in the order of their digits. A block is the least
/// specific prefix that covers an identifier and has no zone and no site strictly below it. If the prefix itself is
/// inside a larger block, it is the one block given, with the outcome of the larger one. The prefix of length 0 covers
/// all. Each identifier is in exactly one block, and the block's outcome is its assignment.
///
/// Refused as Refused with the sink's first refusal, and as Memory if out of memory; either way the sink has taken the
/// first of the blocks, in order. A register of 65,535 rows has up to some nine million blocks; none of them is kept
/// here.
pub fn blocks<S: Sink<Block>>(
    alloc: Global,
    accepted: &Accepted,
    inside: Prefix,
    sink: &mut S,
) -> Result<(), PlanFault<S::Refusal>>
    ensures { (all : List ABlock) × AreBlocks accepted.now inside all × HasGiven S.takes sink.old all result sink.new }
{
    match sort_items(alloc, accepted) {
        Ok(items) => walk(accepted, inside, &side_at(accepted, &items, inside), sink),
        Err(_refused) => Err(PlanFault::Memory),
    }
}
