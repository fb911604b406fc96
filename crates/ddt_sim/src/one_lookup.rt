//! A lookup, from an ask to its outcome, over servers that answer at once.

ghost use Rattle.std.specs.Prelude.{◌≡◌, ◌≤◌, length, Ok, IsOk, IfOk, IfErr};
ghost use Rattle.ddt_path.specs.declared.xeid.Xeid.{Xeid as AnXeid};
ghost use Rattle.ddt_path.specs.declared.record.Outcome.{Outcome as AnOutcome};
ghost use Rattle.ddt_register.specs.declared.register.Register.{Register};
ghost use Rattle.ddt_resolver.specs.State.{moved};
ghost use Rattle.ddt_resolver.specs.declared.results.Asked.TheVariants.{Answer};
ghost use Rattle.ddt_resolver.specs.Bound.{StartsWithin};
ghost use Rattle.ddt_wire.specs.Address.{IsAddress};
ghost use Rattle.ddt_sim.specs.Sound.{IsSound};
ghost use Rattle.ddt_sim.specs.Waiting.{IsAwaited, CanBeAsked, requests_left};
ghost use Rattle.ddt_sim.specs.Lookup.{HasOutcome, Fails, FailsUnder, IsRemembered, ask_failure, WhateverAsked, WhateverSent};
ghost use Rattle.ddt_sim.specs.Trail.{HasTrail};
ghost use Rattle.ddt_sim.specs.Passes.{HasShortPasses, PassesAreShort};
ghost use Rattle.ddt_sim.specs.Headline.{OverHonest, WhenAsked, WhileUnderWay, IsAnswerToAsk};
ghost use Rattle.ddt_sim.specs.Headline.{IsAssigned, HasHonestHops, HasFewHops, IsRightlyEnded, IsRightError, most_hops};

use crate::exchange::{LookupProgress, exchange};
use crate::laws::{a_step_keeps_a_resolver_sound, honest_trails_are_short, passes_are_short};
use crate::lookup_result::{Hop, Lookup, LookupError};
use crate::servers::Servers;
use ddt_cache::{Entry, Moment};
use ddt_path::{Listed, Locator, Xeid};
use ddt_resolver::{AskError, Asked, Outgoing, Resolver, Ticket, Why};
use ddt_trie::PrefixMap;
use std::alloc::Global;

/// Looks an identifier up at `now`: asks the resolver, and passes its requests to the servers and their replies back to
/// it, until the outcome is known (RFC 8111, section 7.3). If the outcome is remembered, no server is asked.
///
/// Refused as 1 GaveUp with its reason: 1 NoReply as soon as a server gives no reply, or one that isn't for this
/// lookup; 4 Exhausted if no nonce is left. If a reply makes the resolver give up, the reason is the resolver's.
/// Refused as 2 TooMany if 1,024 lookups are pending. Fails as 3 Memory only if out of memory. After an error its own
/// lookup is no longer pending, and what was saved stays.
pub fn lookup<S: Servers, M: PrefixMap<Entry>>(
    alloc: Global,
    servers: &mut S,
    resolver: &mut Resolver<M>,
    now: Moment,
    x: Xeid,
) -> Result<Lookup, LookupError>
    // Over honest servers of an accepted register, and from a resolver that is sound for it, the outcome is what
    // longest match over the register assigns.
    ensures headline { OverHonest (S.honest servers.old) resolver.old (λ r. IfOk result (IsAssigned r x)) }
    // The resolver is sound afterwards, and the servers honest.
    ensures sound { OverHonest (S.honest servers.old) resolver.old (λ r. IsSound r resolver.new) }
    ensures stay { (r : Register) → S.honest servers.old r → S.honest servers.new r }
    // Each of its requests is a DDT Map-Request for the identifier, and each reply what the register says at its
    // server.
    ensures hops { OverHonest (S.honest servers.old) resolver.old
        (λ r. IfOk result (HasHonestHops r x resolver.old.me)) }
    // Its requests are at most as many as the zones that cover the identifier, and 7.
    ensures short { OverHonest (S.honest servers.old) resolver.old (λ r. IfOk result (HasFewHops r x)) }
    // It fails only if memory, nonces or room among the pending lookups run out.
    ensures errors { OverHonest (S.honest servers.old) resolver.old
        (λ r. IfErr result (IsRightError resolver.old resolver.new)) }
    // A remembered answer is never refused.
    ensures remembered { IsRemembered x (moved now resolver.old) → IsOk result }
    // Whatever the servers reply: the steps that it took, and the number of its requests.
    ensures steps { IfOk result (λ l. HasOutcome now x resolver.old l.outcome l.hops resolver.new) }
    ensures failed { IfErr result (λ error. Fails now x resolver.old error resolver.new) }
    ensures bound { IfOk result (λ l. length l.hops ≤ most_hops x) }
    // How its requests follow one another, from the entry found for the identifier to the outcome.
    ensures trail { IfOk result (λ l. HasTrail x (moved now resolver.old) l.outcome l.hops) }
    // It has at most two passes, and each follows at most one referral more than the identifier has digits.
    ensures passes { IfOk result (λ l. HasShortPasses x l.hops) }
    // The same holds at any point of a lookup, also of one that fails.
    ensures under_way { PassesAreShort }
{
    a_step_keeps_a_resolver_sound();
    honest_trails_are_short();
    passes_are_short();
    resolver.in_order();
    // The number tells the proof that it is a moment.
    let _millis = now.millis();
    match resolver.ask(now, x) {
        Ok(asked) => {
            can_be_asked(x, resolver.me());
            after_ask(alloc, servers, resolver, now, asked)
        }
        Err(error) => Err(ask_refused(error)),
    }
}

/// The error of a lookup whose ask is refused.
fn ask_refused(error: AskError) -> LookupError
    ensures { result ≡ ask_failure error }
{
    match error {
        AskError::TooMany => LookupError::TooMany,
        AskError::Exhausted => LookupError::GaveUp(Why::Exhausted),
        AskError::Memory => LookupError::Memory,
    }
}

/// A law of identifiers and addresses: their numbers fit. The call does nothing.
pub(crate) fn can_be_asked(x: Xeid, me: Locator)
    ensures { CanBeAsked x me }
{
    let _iid = x.iid;
    is_address(x.address);
    is_address(me);
}

/// A law of addresses: the number fits the family. The call does nothing.
fn is_address(address: Locator)
    ensures { IsAddress address }
{
    match address {
        Locator::V4(_number) => {}
        Locator::V6(_number) => {}
    }
}

/// Returns the remembered outcome, or follows the lookup that an ask started.
fn after_ask<S: Servers, M: PrefixMap<Entry>>(
    alloc: Global,
    servers: &mut S,
    resolver: &mut Resolver<M>,
    now: Moment,
    asked: Asked,
) -> Result<Lookup, LookupError>
    requires { IsAnswerToAsk now resolver.old asked }
    ensures steps { WhateverAsked now resolver.old asked
        (λ x start. IfOk result (λ l. HasOutcome now x start l.outcome l.hops resolver.new)) }
    ensures failed { WhateverAsked now resolver.old asked
        (λ x start. IfErr result (λ error. Fails now x start error resolver.new)) }
    ensures honest { WhenAsked (S.honest servers.old) now resolver.old asked
        (λ r x. IsRightlyEnded r x resolver.old.me result resolver.new) }
    ensures stay { (r : Register) → S.honest servers.old r → S.honest servers.new r }
    ensures answered { (o : AnOutcome) → asked ≡ Answer o → IsOk result }
    ensures bound { (x : AnXeid) → StartsWithin resolver.old x asked → IfOk result (λ l. length l.hops ≤ most_hops x) }
{
    match asked {
        Asked::Answer(outcome) => Ok(Lookup {
            outcome,
            hops: Listed::of(Vec::new(alloc)),
        }),
        Asked::Sent(ticket, request) => match follow(
            alloc, servers, resolver, now, ticket, request,
        ) {
            Ok(lookup) => Ok(lookup),
            Err(error) => {
                resolver.cancel(ticket);
                Err(error)
            }
        },
    }
}

/// Follows the replies of a lookup until it ends.
fn follow<S: Servers, M: PrefixMap<Entry>>(
    alloc: Global,
    servers: &mut S,
    resolver: &mut Resolver<M>,
    now: Moment,
    ticket: Ticket,
    request: Outgoing,
) -> Result<Lookup, LookupError>
    requires { IsAwaited now resolver.old ticket request }
    ensures steps { WhateverSent now resolver.old ticket request
        (λ x start. IfOk result (λ l. HasOutcome now x start l.outcome l.hops resolver.new)) }
    ensures failed { WhateverSent now resolver.old ticket request
        (λ x start. IfErr result (λ error. FailsUnder now x start ticket error resolver.new)) }
    ensures honest { WhileUnderWay (S.honest servers.old) now resolver.old ticket request
        (λ r x. IsRightlyEnded r x resolver.old.me result resolver.new) }
    ensures stay { (r : Register) → S.honest servers.old r → S.honest servers.new r }
    ensures bound { IfOk result (λ l. length l.hops ≤ requests_left resolver.old ticket) }
{
    let mut hops: Vec<Hop> = Vec::new(alloc);
    let mut request = request;
    loop {
        match exchange(alloc, servers, resolver, now, ticket, request, &mut hops) {
            Ok(LookupProgress::GoesOn(next)) => request = next,
            Ok(LookupProgress::Ends(outcome)) => {
                return Ok(Lookup {
                    outcome,
                    hops: Listed::of(hops),
                });
            }
            Err(error) => return Err(error),
        }
    }
}
