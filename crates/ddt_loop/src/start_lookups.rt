//! Starting lookups: of the listed identifiers before the first turn, and of ITRs (RFC 8111, section 7.3).

ghost use Rattle.std.specs.Prelude.{◌≡◌, List, length, IfSome, IfNone};
ghost use Rattle.ddt_sockets.specs.declared.wire_calls.Call.{Call as ACall};
ghost use Rattle.ddt_sockets.specs.Calls.{RecordsCalls};
ghost use Rattle.ddt_loop.specs.declared.requester.Requester.TheVariants.{Itr as IsItr};
ghost use Rattle.ddt_loop.specs.Requesters.{AreWaiting, with_requester};
ghost use Rattle.ddt_loop.specs.Acts.{running, remembered, IsSent, Starts, HasRoomFor};
ghost use Rattle.ddt_loop.specs.Acts.{Asks, AsksAt, AsksForItr};
ghost use Rattle.ddt_loop.specs.Turns.{HaveAsked};

use crate::lookup_end::end_of_ask;
use crate::requester::Requester;
use crate::requesters::Requesters;
use crate::resolver_steps::Here;
use ddt_cache::{Entry, Moment};
use ddt_path::{Locator, Outcome, Xeid};
use ddt_resolver::{AskError, Asked, ItrRequest, Outgoing, Resolver};
use ddt_sockets::Wires;
use ddt_trie::PrefixMap;

/// Asks the resolver for each identifier, in order.
pub(crate) fn ask_all<W: Wires, M: PrefixMap<Entry>>(
    wires: &mut W,
    resolver: &mut Resolver<M>,
    here: &Here,
    ids: &[Xeid],
    requesters: &mut Requesters,
)
    requires { AreWaiting resolver.old requesters.old.waiting }
    ensures asks { (calls : List ACall) × RecordsCalls (W.calls wires.old) calls (W.calls wires.new)
        × HaveAsked here.now.me here.now.moment ids.now (running resolver.old requesters.old) (length ids.now) calls
        (running resolver.new requesters.new) }
    ensures waiting { AreWaiting resolver.new requesters.new.waiting }
{
    for (place, x) in ids.iter().enumerate() {
        ask_at(wires, resolver, here, *x, place, requesters);
    }
}

/// Asks the resolver for the identifier at an index of the list.
fn ask_at<W: Wires, M: PrefixMap<Entry>>(
    wires: &mut W,
    resolver: &mut Resolver<M>,
    here: &Here,
    x: Xeid,
    place: usize,
    requesters: &mut Requesters,
)
    requires { AreWaiting resolver.old requesters.old.waiting }
    ensures asks { (calls : List ACall) × RecordsCalls (W.calls wires.old) calls (W.calls wires.new)
        × AsksAt here.now.me here.now.moment place x (running resolver.old requesters.old) calls
        (running resolver.new requesters.new) }
    ensures waiting { AreWaiting resolver.new requesters.new.waiting }
{
    let requester = Requester::Identifier(place);
    let answer = ask(wires, resolver, here, x, requester, requesters);
    requesters.end(place, end_of_ask(answer));
}

/// Asks the resolver what an ITR asks. A remembered answer is sent at once; a refused ask drops the request. Returns
/// the number of the ticket that the ITR waits for, if any.
pub(crate) fn ask_for_itr<W: Wires, M: PrefixMap<Entry>>(
    wires: &mut W,
    resolver: &mut Resolver<M>,
    here: &Here,
    request: ItrRequest,
    requesters: &mut Requesters,
) -> Option<u64>
    requires { AreWaiting resolver.old requesters.old.waiting }
    ensures waits { IfSome result (λ t. requesters.new ≡ with_requester requesters.old t (IsItr request)) }
    ensures none { IfNone result (requesters.new ≡ requesters.old) }
    ensures asks { (calls : List ACall) × RecordsCalls (W.calls wires.old) calls (W.calls wires.new)
        × AsksForItr here.now.me here.now.moment request (running resolver.old requesters.old) calls
        (running resolver.new requesters.new) }
    ensures waiting { AreWaiting resolver.new requesters.new.waiting }
{
    let requester = Requester::Itr(request);
    let answer = ask(wires, resolver, here, request.xeid, requester, requesters);
    match answer {
        Ok(Some(outcome)) => {
            requesters.reply_to_itr(wires, here.me, &outcome, &request);
            None
        }
        Ok(None) => requesters.newest(),
        Err(_why) => None,
    }
}

/// Asks the resolver for an identifier. Returns the outcome if it is remembered. Otherwise the first request of the
/// lookup is sent, and the requester waits for its end.
fn ask<W: Wires, M: PrefixMap<Entry>>(
    wires: &mut W,
    resolver: &mut Resolver<M>,
    here: &Here,
    x: Xeid,
    requester: Requester,
    requesters: &mut Requesters,
) -> Result<Option<Outcome>, AskError>
    requires { AreWaiting resolver.old requesters.old.waiting }
    ensures asks { (calls : List ACall) × RecordsCalls (W.calls wires.old) calls (W.calls wires.new)
        × Asks here.now.me here.now.moment x requester (running resolver.old requesters.old) result calls
        (running resolver.new requesters.new) }
    ensures waiting { AreWaiting resolver.new requesters.new.waiting }
{
    resolver.in_order();
    // Read for its bound: no moment is later than the last.
    let _millis = here.moment.millis();
    match resolver.ask(here.moment, x) {
        Ok(asked) => Ok(after_ask(wires, here.me, requester, requesters, asked)),
        Err(why) => Err(why),
    }
}

/// Returns a remembered outcome, or sends the first request of the lookup.
fn after_ask<W: Wires>(
    wires: &mut W,
    me: Locator,
    requester: Requester,
    requesters: &mut Requesters,
    asked: Asked,
) -> Option<Outcome>
    requires { HasRoomFor asked requesters.old }
    ensures starts { (calls : List ACall) × RecordsCalls (W.calls wires.old) calls (W.calls wires.new)
        × Starts me requester requesters.old asked calls requesters.new }
    ensures remembered { result ≡ remembered asked }
{
    match asked {
        Asked::Answer(outcome) => Some(outcome),
        Asked::Sent(ticket, request) => {
            requesters.add(ticket, requester);
            try_to_send(wires, me, &request);
            None
        }
    }
}

/// Sends a datagram from the resolver's address. A datagram that can't be sent is lost.
pub(crate) fn try_to_send<W: Wires>(wires: &mut W, me: Locator, datagram: &Outgoing)
    ensures { (calls : List ACall) × RecordsCalls (W.calls wires.old) calls (W.calls wires.new)
        × IsSent me datagram.now calls }
{
    let _sent = wires.send(me, datagram.to, datagram.port, datagram.bytes.as_slice());
}
