//! Sinks, which take blocks and changes one after the other, and may refuse one.

ghost use Rattle.std.specs.Prelude.{◌≡◌, ◌≢◌, ◌++◌, ◌∷◌, [], Err, MatchResult};
ghost use Rattle.ddt_plan.specs.Sinks.{HasGiven};

use std::alloc::AllocError;

/// Takes items as they are found.
pub trait Sink<T> {
    ghost use Rattle.std.specs.Prelude.{Result};

    /// Why it refuses an item.
    type Refusal: Drop;

    /// What a call may do: the sink before, the item, the result, and the sink after.
    ghost takes: { Self → T → Result (Unit {0}) Self.Refusal → Self → Type 0 };

    /// Takes the next item, or refuses it. After a refusal it is given no other.
    fn give(&mut self, item: T) -> Result<(), Self::Refusal>
        ensures { takes self.old item result self.new };
}

/// Appends each item to the list. Refused only if out of memory; the list doesn't change then.
impl<T: Drop> Sink<T> for Vec<T> {
    type Refusal = AllocError;

    ghost takes = { λ before item answer after.
        MatchResult answer (λ _. after.items ≡ before.items ++ item ∷ []) (λ _. after.items ≡ before.items) };

    fn give(&mut self, item: T) -> Result<(), AllocError> {
        self.push(item)?;
        Ok(())
    }
}

/// Why the sink wasn't given all items.
#[derive(Debug, Drop, PartialEq, Eq)]
pub enum PlanFault<R> {
    /// Out of memory. The sink has taken the first of the items, in order.
    Memory,
    /// The sink refused an item, and has taken all before that one.
    Refused(R),
}

/// Gives one item to a sink. Only the sink refuses: `PlanFault::Memory` is never the answer.
pub fn give<T, S: Sink<T>>(sink: &mut S, item: T) -> Result<(), PlanFault<S::Refusal>>
    ensures given { HasGiven S.takes sink.old (item ∷ []) result sink.new }
    ensures own { result ≢ Err PlanFault.Memory }
{
    match sink.give(item) {
        Ok(()) => Ok(()),
        Err(refusal) => Err(PlanFault::Refused(refusal)),
    }
}
