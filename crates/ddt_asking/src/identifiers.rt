//! The identifiers that a probe asks about if nobody names any: one of each block that a register assigns alike, or one
//! of each block whose assignment a change of the register alters.

ghost use Rattle.std.specs.Prelude.{◌≡◌, List, [], map, IfOk, MatchResult, ⊤};
ghost use Rattle.ddt_path.specs.Path.{xeid_path};
ghost use Rattle.ddt_plan.specs.Changes.{AreBlocks, AreChanges};
ghost use Rattle.ddt_plan.specs.declared.block_list.Block.{Block as ABlock};
ghost use Rattle.ddt_plan.specs.declared.change_list.Change.{Change as AChange};
ghost use Rattle.ddt_plan.specs.declared.outcomes.Reading.TheVariants.{Exact};
ghost use Rattle.ddt_asking.specs.Identifiers.{AreInside, AddsInside};

use ddt_check::Accepted;
use ddt_path::{Locator, Prefix, Xeid};
use ddt_plan::{Block, Change, Reading, Sink, blocks, changes};
use std::alloc::{AllocError, Global};

/// Collects an identifier of each prefix that it is given, in their order.
#[derive(Drop)]
struct IdentifierSink {
    identifiers: Vec<Xeid>,
}

impl IdentifierSink {
    fn push(&mut self, prefix: Prefix) -> Result<(), AllocError>
        ensures { MatchResult result (λ _. AddsInside prefix self.old.identifiers.items self.new.identifiers.items)
            (λ _. ⊤) }
    {
        self.identifiers.push(prefix.inner())?;
        Ok(())
    }
}

impl Sink<Block> for IdentifierSink {
    type Refusal = AllocError;

    ghost takes = { λ before block answer after. MatchResult answer
        (λ _. AddsInside block.prefix before.identifiers.items after.identifiers.items) (λ _. ⊤) };

    fn give(&mut self, block: Block) -> Result<(), AllocError> {
        self.push(block.prefix)
    }
}

impl Sink<Change> for IdentifierSink {
    type Refusal = AllocError;

    ghost takes = { λ before change answer after. MatchResult answer
        (λ _. AddsInside change.prefix before.identifiers.items after.identifiers.items) (λ _. ⊤) };

    fn give(&mut self, change: Change) -> Result<(), AllocError> {
        self.push(change.prefix)
    }
}

/// Returns the prefix that covers everything.
fn everything() -> Prefix
    ensures { result ≡ [] }
{
    let any = Xeid {
        iid: 0,
        address: Locator::V4(0),
    };
    Prefix::cut(any, 0)
}

/// Returns an identifier of each block of a register, in the order of `ddt_plan::blocks`. A register of 65,535 rows has
/// up to some nine million.
pub fn block_identifiers(alloc: Global, accepted: &Accepted) -> Result<Vec<Xeid>, AllocError>
    ensures { IfOk result (λ xs. (all : List ABlock) × AreBlocks accepted.now [] all
        × AreInside (map (λ b. b.prefix) all) (map xeid_path xs.items)) }
{
    let mut inner = IdentifierSink {
        identifiers: Vec::new(alloc),
    };
    match blocks(alloc, accepted, everything(), &mut inner) {
        Ok(()) => Ok(inner.identifiers),
        Err(_fault) => Err(AllocError),
    }
}

/// Returns an identifier of each block whose assignment differs between two registers, even if only by its prefix, in
/// the order of `ddt_plan::changes`.
pub fn changed_identifiers(
    alloc: Global,
    before: &Accepted,
    after: &Accepted,
) -> Result<Vec<Xeid>, AllocError>
    ensures { IfOk result (λ xs. (all : List AChange) × AreChanges Exact before.now after.now [] all
        × AreInside (map (λ c. c.prefix) all) (map xeid_path xs.items)) }
{
    let mut inner = IdentifierSink {
        identifiers: Vec::new(alloc),
    };
    match changes(
        alloc,
        Reading::Exact,
        before,
        after,
        everything(),
        &mut inner,
    ) {
        Ok(()) => Ok(inner.identifiers),
        Err(_fault) => Err(AllocError),
    }
}
