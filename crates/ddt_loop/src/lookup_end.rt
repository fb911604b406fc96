//! The end of a listed identifier's lookup.

ghost use Rattle.std.specs.Prelude.{◌≡◌, map, IfOk};
ghost use Rattle.ddt_loop.specs.declared.lookup_end.LoopEnd.TheVariants.{Unresolved};
ghost use Rattle.ddt_loop.specs.Requesters.{end_of as end_of_lookup, end_of_ask as end_of_an_ask, is_unresolved};

use ddt_path::{Outcome, Xeid};
use ddt_resolver::{AskError, Why};
use std::alloc::{AllocError, Global};

/// The end of an identifier's lookup.
#[derive(Clone, Copy, Debug, PartialEq, Eq)]
pub enum LoopEnd {
    /// Its outcome.
    Answer(Outcome),
    /// The lookup gave up.
    GaveUp(Why),
    /// The resolver refused the ask.
    Refused(AskError),
    /// The lookup hadn't ended after the last turn.
    Unresolved,
}

/// Whether the lookup hasn't ended yet.
pub(crate) fn is_open(end: LoopEnd) -> bool
    ensures { result ≡ is_unresolved end }
{
    match end {
        LoopEnd::Unresolved => true,
        _ => false,
    }
}

/// The end of an identifier whose lookup has ended.
pub(crate) fn end_of(end: Result<Outcome, Why>) -> LoopEnd
    ensures { result ≡ end_of_lookup end }
{
    match end {
        Ok(outcome) => LoopEnd::Answer(outcome),
        Err(why) => LoopEnd::GaveUp(why),
    }
}

/// The end of an identifier after its ask: a remembered outcome, unresolved, or refused.
pub(crate) fn end_of_ask(answer: Result<Option<Outcome>, AskError>) -> LoopEnd
    ensures { result ≡ end_of_an_ask answer }
{
    match answer {
        Ok(Some(outcome)) => LoopEnd::Answer(outcome),
        Ok(None) => LoopEnd::Unresolved,
        Err(why) => LoopEnd::Refused(why),
    }
}

/// Returns one unresolved end for each identifier. Fails only if out of memory.
pub(crate) fn unresolved(alloc: Global, ids: &[Xeid]) -> Result<Vec<LoopEnd>, AllocError>
    ensures { IfOk result (λ ends. ends.items ≡ map (λ _. Unresolved) ids.now) }
{
    ids.iter()
        .map(|_identifier| LoopEnd::Unresolved)
        .collect(alloc)
}
