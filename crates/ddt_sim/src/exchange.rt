//! The exchange of one request of a lookup for its reply.

ghost use Rattle.std.specs.Prelude.{◌≡◌, ◌<◌, IfOk, IfErr, MatchOption};
ghost use Rattle.ddt_path.specs.declared.xeid.Xeid.{Xeid as AnXeid};
ghost use Rattle.ddt_register.specs.declared.register.Register.{Register};
ghost use Rattle.ddt_sim.specs.Lookup.{IsLookupTurn, TurnFails, IsNotFor, heard_of, reply_or_failure, turn_or_failure};
ghost use Rattle.ddt_sim.specs.Waiting.{Waits, requests_left, left_after};
ghost use Rattle.ddt_sim.specs.Headline.{WhileUnderWay, IsRightlyTurned};

use crate::laws::requests_are_understood;
use crate::lookup_result::{Hop, LookupError};
use crate::servers::Servers;
use ddt_cache::{Entry, Moment};
use ddt_path::{Listed, Outcome};
use ddt_resolver::{Heard, Outgoing, Resolver, Ticket, Why};
use ddt_trie::PrefixMap;
use std::alloc::{AllocError, Global};

/// How a lookup goes on after a reply.
#[derive(Debug, Drop)]
pub enum LookupProgress {
    /// It sends this request.
    GoesOn(Outgoing),
    /// It ends with this outcome.
    Ends(Outcome),
}

/// Sends a lookup's request to its server, passes the reply to the resolver, and appends the hop. Gives up as 1 NoReply
/// if there is no reply, or if it isn't for this lookup.
pub(crate) fn exchange<S: Servers, M: PrefixMap<Entry>>(
    alloc: Global,
    servers: &mut S,
    resolver: &mut Resolver<M>,
    now: Moment,
    ticket: Ticket,
    request: Outgoing,
    hops: &mut Vec<Hop>,
) -> Result<LookupProgress, LookupError>
    ensures turn { IfOk result (λ turn.
        IsLookupTurn now resolver.old ticket request hops.old.items turn hops.new.items resolver.new) }
    ensures failed { IfErr result (λ error. TurnFails now resolver.old ticket request error resolver.new) }
    // Over honest servers it is right, its hop is honest, and the resolver stays sound.
    ensures honest { WhileUnderWay (S.honest servers.old) now resolver.old ticket request (λ r x.
        IsRightlyTurned r x resolver.old.me hops.old.items result hops.new.items resolver.new) }
    ensures stay { (r : Register) → S.honest servers.old r → S.honest servers.new r }
    // If the lookup waited, each next request leaves fewer that can follow.
    ensures nearer { (x : AnXeid) → Waits now x resolver.old ticket request
        → IfOk result (λ turn. left_after resolver.new ticket turn < requests_left resolver.old ticket) }
{
    requests_are_understood();
    resolver.in_order();
    // The number tells the proof that it is a moment.
    let _millis = now.millis();
    let reply = replied(servers.answer(alloc, request.to, request.bytes.as_slice()))?;
    let heard = match resolver.datagram(now, request.to, reply.as_slice()) {
        Ok(heard) => heard,
        Err(_refused) => return Err(LookupError::Memory),
    };
    let turn = turn_from(heard_for(ticket, heard))?;
    let hop = Hop {
        to: request.to,
        request: request.bytes,
        reply,
    };
    match hops.push(hop) {
        Ok(()) => Ok(turn),
        Err(_refused) => Err(LookupError::Memory),
    }
}

/// The reply. 1 GaveUp as 1 NoReply if there is none, and 3 Memory if out of memory.
fn replied(answer: Result<Option<Listed<u8>>, AllocError>) -> Result<Listed<u8>, LookupError>
    ensures { result ≡ reply_or_failure answer }
{
    match answer {
        Ok(Some(reply)) => Ok(reply),
        Ok(None) => Err(LookupError::GaveUp(Why::NoReply)),
        Err(AllocError) => Err(LookupError::Memory),
    }
}

/// How a lookup goes on or ends. 1 GaveUp if it gave up, with reason 1 NoReply if the reply wasn't for its ticket.
fn turn_from(heard: Option<Result<LookupProgress, Why>>) -> Result<LookupProgress, LookupError>
    ensures { result ≡ turn_or_failure heard }
{
    match heard {
        Some(Ok(turn)) => Ok(turn),
        Some(Err(why)) => Err(LookupError::GaveUp(why)),
        None => Err(LookupError::GaveUp(Why::NoReply)),
    }
}

/// The resolver's result for a reply: how the lookup of the ticket goes on or ends, or why it gave up; None if the
/// reply wasn't for this ticket.
fn heard_for(ticket: Ticket, heard: Heard) -> Option<Result<LookupProgress, Why>>
    ensures { MatchOption result (IsNotFor ticket heard) (λ turn. heard ≡ heard_of ticket turn) }
{
    match heard {
        Heard::Followed(of, next) => if_own(ticket, of, Ok(LookupProgress::GoesOn(next))),
        Heard::Answer(of, outcome) => if_own(ticket, of, Ok(LookupProgress::Ends(outcome))),
        Heard::GaveUp(of, why) => if_own(ticket, of, Err(why)),
        Heard::Ignored(_why) => None,
    }
}

/// The result of a reply, if it is for this ticket.
fn if_own(
    ticket: Ticket,
    of: Ticket,
    made: Result<LookupProgress, Why>,
) -> Option<Result<LookupProgress, Why>>
    ensures { MatchOption result (of ≡ ticket → ⊥) (λ own. (of ≡ ticket) × (own ≡ made)) }
{
    if of.number() == ticket.number() {
        Some(made)
    } else {
        None
    }
}
