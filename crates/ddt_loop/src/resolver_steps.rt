//! The steps of a running resolver: packets at its own socket, and ticks. Each makes a lookup go on or end.

ghost use Rattle.std.specs.Prelude.{◌≡◌, ◌<◌, false, List, length, IfOk, IfSome, IfNone};
ghost use Rattle.ddt_path.specs.declared.locator.Locator.{Locator as ALocator};
ghost use Rattle.ddt_sockets.specs.declared.wire_calls.Call.{Call as ACall};
ghost use Rattle.ddt_sockets.specs.Calls.{RecordsCalls};
ghost use Rattle.ddt_resolver.specs.State.{moved, server, request_bytes};
ghost use Rattle.ddt_resolver.specs.Step.{call_of};
ghost use Rattle.ddt_loop.specs.Requesters.{AreWaiting};
ghost use Rattle.ddt_loop.specs.Acts.{running, Proceeds, FinishesLookup, HearsOrTicks, Hastens, Resends};
ghost use Rattle.ddt_loop.specs.Ends.{IsToldEnd, IsEnd, HasEnded, HasEndedBy, HasEndedByHaste};
ghost use Rattle.ddt_wire.specs.declared.message_type.MessageType.TheVariants.{Encapsulated};
ghost use Rattle.ddt_wire.specs.MessageType.{is_of};
ghost use Rattle.ddt_loop.specs.PacketOutcomes.{IsPacketOutcome, outcome_of_reply};
ghost use Rattle.ddt_loop.specs.Polls.{IsPacketTaken};
ghost use Rattle.ddt_resolver.specs.declared.results.Ignored.{Ignored as Reason};
ghost use Rattle.ddt_loop.specs.Ignoring.{IsIgnored, SaysWhy};

use crate::lookup_end::end_of;
use crate::packet_outcome::{
    DatagramOutcome, Ended, PacketOutcome, ended_lookup, reply_outcome, request_outcome,
    why_ignored,
};
use crate::requester::Requester;
use crate::requesters::Requesters;
use crate::start_lookups::{ask_for_itr, try_to_send};
use ddt_cache::{Entry, Moment};
use ddt_ecm::{CONTROL_PORT, write_request};
use ddt_path::{Locator, Outcome};
use ddt_resolver::{
    Front, Input, ItrRequest, Pending, Progress, Reply, Resolver, Ticket, Why, usable_is_taken,
};
use ddt_sockets::{Packet, Wires};
use ddt_trie::PrefixMap;
use ddt_wire::MessageType;
use std::alloc::{AllocError, Global};

/// The resolver's own address, and the moment of a step.
#[derive(Clone, Copy, Debug)]
pub(crate) struct Here {
    pub(crate) me: Locator,
    pub(crate) moment: Moment,
}

/// Handles a packet of these bytes that came to the resolver's own socket. An ITR's request, in an Encapsulated Control
/// Message, is looked up. Any other datagram from UDP port 4342 is a reply to the resolver. The rest is dropped.
/// Returns the outcome for the ITRs that wait.
pub(crate) fn take<W: Wires, M: PrefixMap<Entry>>(
    wires: &mut W,
    resolver: &mut Resolver<M>,
    here: &Here,
    requesters: &mut Requesters,
    packet: Packet,
    bytes: &[u8],
) -> PacketOutcome
    requires { AreWaiting resolver.old requesters.old.waiting }
    ensures came { IsPacketOutcome here.now.moment packet.from bytes.now (running resolver.old requesters.old)
        (running resolver.new requesters.new) result }
    ensures taken { (calls : List ACall) × RecordsCalls (W.calls wires.old) calls (W.calls wires.new)
        × IsPacketTaken here.now.me here.now.moment packet bytes.now (running resolver.old requesters.old) calls
        (running resolver.new requesters.new) }
    ensures waiting { AreWaiting resolver.new requesters.new.waiting }
{
    if MessageType::Encapsulated.is_of(bytes) {
        match Front::itr_request(bytes) {
            Some(request) => {
                let ticket = ask_for_itr(wires, resolver, here, request, requesters);
                request_outcome(ticket, bytes.len())
            }
            None => PacketOutcome::Nothing,
        }
    } else {
        let heard = hear(wires, resolver, here, requesters, packet, bytes);
        reply_outcome(packet.from, heard.ended)
    }
}

/// Handles a packet of these bytes, which aren't an Encapsulated Control Message. A datagram from UDP port 4342 is a
/// reply to the resolver; any other is dropped. Returns the end of the ITR's lookup that it ended, and why it is
/// ignored.
pub(crate) fn hear<W: Wires, M: PrefixMap<Entry>>(
    wires: &mut W,
    resolver: &mut Resolver<M>,
    here: &Here,
    requesters: &mut Requesters,
    packet: Packet,
    bytes: &[u8],
) -> DatagramOutcome
    requires waiting { AreWaiting resolver.old requesters.old.waiting }
    requires plain { is_of Encapsulated bytes.now ≡ false }
    ensures came { IsPacketOutcome here.now.moment packet.from bytes.now (running resolver.old requesters.old)
        (running resolver.new requesters.new) (outcome_of_reply packet.from result.ended) }
    ensures taken { (calls : List ACall) × RecordsCalls (W.calls wires.old) calls (W.calls wires.new)
        × IsPacketTaken here.now.me here.now.moment packet bytes.now (running resolver.old requesters.old) calls
        (running resolver.new requesters.new) }
    ensures ignored { IfSome result.ignored (IsIgnored here.now.moment packet bytes.now
        (running resolver.old requesters.old)) }
    ensures used { IfNone result.ignored ((why : Reason) → IsIgnored here.now.moment packet bytes.now
        (running resolver.old requesters.old) why → ⊥) }
    ensures waiting { AreWaiting resolver.new requesters.new.waiting }
{
    usable_is_taken();
    resolver.in_order();
    // Read for its bound: no moment is later than the last.
    let _millis = here.moment.millis();
    if packet.port != CONTROL_PORT {
        return DatagramOutcome {
            ended: None,
            ignored: None,
        };
    }
    let input = Input::Datagram(packet.from, bytes);
    resolve(wires, resolver, here, requesters, input)
}

/// Takes a step of the resolver: a lookup goes on or ends, or none changes. If out of memory, nothing is done: a
/// datagram is lost, and a deadline is due again at the next tick. A tick ignores nothing.
pub(crate) fn resolve<W: Wires, M: PrefixMap<Entry>>(
    wires: &mut W,
    resolver: &mut Resolver<M>,
    here: &Here,
    requesters: &mut Requesters,
    input: Input<'_>,
) -> DatagramOutcome
    requires { AreWaiting resolver.old requesters.old.waiting }
    ensures ended { HasEndedBy (call_of input.entry) (moved here.now.moment resolver.old) resolver.new
        requesters.old.waiting requesters.new.waiting result.ended }
    ensures resolves { (calls : List ACall) × RecordsCalls (W.calls wires.old) calls (W.calls wires.new)
        × HearsOrTicks here.now.me here.now.moment (call_of input.entry) (running resolver.old requesters.old) calls
        (running resolver.new requesters.new) }
    ensures ignored { SaysWhy (moved here.now.moment resolver.old) (call_of input.entry) resolver.new result.ignored }
    ensures waiting { AreWaiting resolver.new requesters.new.waiting }
{
    resolver.in_order();
    // Read for its bound: no moment is later than the last.
    let _millis = here.moment.millis();
    match resolver.step(here.moment, input) {
        Ok(reply) => {
            let ignored = why_ignored(&reply);
            let ended = apply_progress(wires, here.me, requesters, reply.progress());
            DatagramOutcome { ended, ignored }
        }
        Err(_refused) => DatagramOutcome {
            ended: None,
            ignored: None,
        },
    }
}

/// Lets the lookup whose last request has this nonce go on or end, whether its deadline has come or not. If out of
/// memory, nothing is done.
pub(crate) fn hasten<W: Wires, M: PrefixMap<Entry>>(
    wires: &mut W,
    resolver: &mut Resolver<M>,
    here: &Here,
    requesters: &mut Requesters,
    nonce: u64,
) -> Option<Ended>
    requires { AreWaiting resolver.old requesters.old.waiting }
    ensures ended { HasEndedByHaste nonce (moved here.now.moment resolver.old) resolver.new
        requesters.old.waiting requesters.new.waiting result }
    ensures hastens { (calls : List ACall) × RecordsCalls (W.calls wires.old) calls (W.calls wires.new)
        × Hastens here.now.me here.now.moment nonce (running resolver.old requesters.old) calls
        (running resolver.new requesters.new) }
    ensures waiting { AreWaiting resolver.new requesters.new.waiting }
{
    resolver.in_order();
    // Read for its bound: no moment is later than the last.
    let _millis = here.moment.millis();
    match resolver.hasten(here.moment, nonce) {
        Ok(ticked) => apply_progress(wires, here.me, requesters, Reply::ToTick(ticked).progress()),
        Err(_refused) => None,
    }
}

/// Sends the last request of the lookup with this nonce again, unchanged. Sends nothing if no pending lookup has it, or
/// if out of memory.
pub(crate) fn resend<W: Wires, M: PrefixMap<Entry>>(
    wires: &mut W,
    resolver: &Resolver<M>,
    me: Locator,
    nonce: u64,
)
    ensures { (calls : List ACall) × RecordsCalls (W.calls wires.old) calls (W.calls wires.new)
        × Resends me nonce resolver.now calls }
{
    resolver.in_order();
    let Some((_ticket, lookup)) = resolver.lookup_with(nonce) else {
        return;
    };
    let server = asked_server(&lookup);
    let Ok(bytes) = last_request(resolver.alloc(), &lookup, me) else {
        return;
    };
    let _sent = wires.send(me, server, CONTROL_PORT, &bytes);
}

/// The server that a lookup asked last.
fn asked_server(lookup: &Pending) -> Locator
    requires { lookup.now.server_index < length lookup.now.servers }
    ensures { (me : ALocator) → result ≡ server me lookup.now }
{
    lookup.servers.as_slice()[lookup.server_index]
}

/// Writes the last request of a lookup. Fails only if out of memory.
#[tactic(auto, unfolding(ddt_resolver::specs::State::request_bytes))]
fn last_request(alloc: Global, lookup: &Pending, me: Locator) -> Result<Vec<u8>, AllocError>
    ensures { IfOk result (λ bytes. bytes.items ≡ request_bytes lookup.now.nonce lookup.now.x me) }
{
    write_request(alloc, lookup.nonce, lookup.x, &[me], true)
}

/// Sends the next request of a lookup that goes on, or finishes one that ends.
fn apply_progress<W: Wires>(
    wires: &mut W,
    me: Locator,
    requesters: &mut Requesters,
    progress: Progress,
) -> Option<Ended>
    ensures goes { (calls : List ACall) × RecordsCalls (W.calls wires.old) calls (W.calls wires.new)
        × Proceeds me requesters.old progress calls requesters.new }
    ensures ended { HasEnded progress requesters.old.waiting requesters.new.waiting result }
{
    match progress {
        Progress::Stays => None,
        Progress::Sends(_ticket, request) => {
            try_to_send(wires, me, &request);
            None
        }
        Progress::Ends(ticket, end) => finish_lookup(wires, me, requesters, ticket, end),
    }
}

/// Finishes a lookup that has ended: sets the end of its identifier, or sends its ITR the negative Map-Reply, if there
/// is one.
fn finish_lookup<W: Wires>(
    wires: &mut W,
    me: Locator,
    requesters: &mut Requesters,
    ticket: Ticket,
    end: Result<Outcome, Why>,
) -> Option<Ended>
    ensures settles { (calls : List ACall) × RecordsCalls (W.calls wires.old) calls (W.calls wires.new)
        × FinishesLookup me ticket end requesters.old calls requesters.new }
    ensures ended { IsEnd ticket end requesters.old.waiting requesters.new.waiting result }
{
    match requesters.take(ticket) {
        Some(Requester::Identifier(place)) => {
            requesters.end(place, end_of(end));
            None
        }
        Some(Requester::Itr(request)) => {
            tell_itr(wires, me, requesters, &request, &end);
            Some(ended_lookup(ticket, &end))
        }
        None => None,
    }
}

/// Sends an ITR whose lookup has ended the negative Map-Reply, if there is one.
pub(crate) fn tell_itr<W: Wires>(
    wires: &mut W,
    me: Locator,
    requesters: &mut Requesters,
    request: &ItrRequest,
    end: &Result<Outcome, Why>,
)
    ensures same { requesters.new ≡ requesters.old }
    ensures told { (calls : List ACall) × RecordsCalls (W.calls wires.old) calls (W.calls wires.new)
        × IsToldEnd me end.now request.now calls }
{
    match end {
        Ok(outcome) => requesters.reply_to_itr(wires, me, outcome, request),
        Err(_why) => {}
    }
}
