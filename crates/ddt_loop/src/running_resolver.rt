//! A resolver that runs for ITRs: packets at its own socket, and ticks.

ghost use Rattle.std.specs.Prelude.{◌≡◌, ℕ, false, [], List, IfOk, IfSome, IfNone};
ghost use Rattle.std.specs.FinMap as map;
ghost use Rattle.ddt_loop.specs.Sharing.{IsAskedBy};
ghost use Rattle.ddt_sockets.specs.declared.wire_calls.Call.{Call as ACall};
ghost use Rattle.ddt_sockets.specs.Calls.{RecordsCalls};
ghost use Rattle.ddt_resolver.specs.State.{moved, forgotten};
ghost use Rattle.ddt_resolver.specs.declared.results.Ignored.{Ignored as Reason};
ghost use Rattle.ddt_resolver.specs.Step.{Tick};
ghost use Rattle.ddt_loop.specs.declared.requester.Requester.TheVariants.{Itr};
ghost use Rattle.ddt_loop.specs.Requesters.{opening_desk, with_requester};
ghost use Rattle.ddt_path.specs.Path.{xeid_path};
ghost use Rattle.ddt_cache.specs.Found.{IsFound};
ghost use Rattle.ddt_resolver.specs.AskStep.{beginning_at};
ghost use Rattle.ddt_loop.specs.Acts.{running, AsksForItr, HearsOrTicks, Hastens, Resends};
ghost use Rattle.ddt_wire.specs.declared.message_type.MessageType.TheVariants.{Encapsulated};
ghost use Rattle.ddt_wire.specs.MessageType.{is_of};
ghost use Rattle.ddt_loop.specs.PacketOutcomes.{IsPacketOutcome, outcome_of_reply};
ghost use Rattle.ddt_loop.specs.Ends.{HasEndedBy, HasEndedByHaste, IsToldEnd};
ghost use Rattle.ddt_loop.specs.Ignoring.{IsIgnored};
ghost use Rattle.ddt_loop.specs.Polls.{IsPacketTaken};
ghost use Rattle.ddt_loop.specs.Runs.{FairRunsAreRight};

use crate::packet_outcome::{DatagramOutcome, Ended, PacketOutcome};
use crate::requesters::Requesters;
use crate::resolver_steps::{Here, hasten, hear, resend, resolve, take, tell_itr};
use crate::start_lookups::ask_for_itr;
use ddt_cache::{Entry, Moment};
use ddt_path::{Locator, Outcome, Prefix, Xeid};
use ddt_resolver::{Beginning, Input, ItrRequest, Resolver, Why};
use ddt_sim::{a_step_keeps_a_resolver_sound, a_step_keeps_starts_true, honest_replies_are_inside};
use ddt_sockets::{Packet, Wires};
use ddt_trie::PrefixMap;
use std::alloc::{AllocError, Global};
use std::marker::Model;

/// A resolver, and the ITRs that wait for its lookups. Contracts see both.
#[derive(Drop)]
pub struct RunningResolver<M: PrefixMap<Entry>> {
    resolver: Resolver<M>,
    requesters: Requesters,
}

impl<M: PrefixMap<Entry>> Model for RunningResolver<M> {
    ghost use Rattle.ddt_path.specs.contracts.locator.Locator as locator;
    ghost use Rattle.ddt_cache.specs.contracts.cache_entry.Entry as entry;
    ghost use Rattle.ddt_resolver.specs.contracts.pending.Pending as pending;
    ghost use Rattle.ddt_resolver.specs.State.{state_code};
    ghost use Rattle.ddt_loop.specs.contracts.requester.WaitingRequester as owner;
    ghost use Rattle.ddt_loop.specs.contracts.lookup_end.LoopEnd as loop_end;
    ghost use Rattle.ddt_loop.specs.Acts.{Running, running_code};
    ghost use Rattle.ddt_loop.specs.Requesters.{AreWaiting, desk_code};

    ghost Value = { Running };

    ghost coded = { running_code (state_code entry.the_row.coded locator.the_row.coded pending.the_row.coded)
        (desk_code owner.the_row.coded loop_end.the_row.coded) };

    ghost view = { λ r. record { state = r.resolver; desk = r.requesters } };

    ghost invariant = { λ r. AreWaiting r.resolver r.requesters.waiting };
}

impl<M: PrefixMap<Entry>> RunningResolver<M> {
    /// Creates a running resolver without waiting ITRs. Fails only if out of memory.
    pub fn new(alloc: Global, resolver: Resolver<M>) -> Result<RunningResolver<M>, AllocError>
        ensures { IfOk result (λ it. it ≡ running resolver (opening_desk [])) }
    {
        match Requesters::new(alloc, &[]) {
            Ok(requesters) => Ok(RunningResolver {
                resolver,
                requesters,
            }),
            Err(refused) => Err(refused),
        }
    }

    /// The resolver.
    pub fn resolver(&self) -> &Resolver<M>
        ensures { result.now ≡ self.now.state }
    {
        &self.resolver
    }

    /// Handles a packet of these bytes that came to the resolver's socket. An ITR's request, in an Encapsulated Control
    /// Message, is looked up. Any other datagram from UDP port 4342 is a reply to the resolver. The rest is dropped.
    /// Returns the outcome for the ITRs that wait.
    ///
    /// A remembered outcome is sent to the ITR at once, and that of its lookup as soon as it ends: the negative
    /// Map-Reply for a hole or a site that isn't registered, and nothing for another end. The reply allocates nothing.
    /// If out of memory for more, the packet is lost (RFC 8111, section 7.3; RFC 9301, sections 5.4 and 5.8).
    pub fn take<W: Wires>(
        &mut self,
        wires: &mut W,
        me: Locator,
        now: Moment,
        packet: Packet,
        bytes: &[u8],
    ) -> PacketOutcome
        ensures came { IsPacketOutcome now packet.from bytes.now self.old self.new result }
        ensures taken { (calls : List ACall) × RecordsCalls (W.calls wires.old) calls (W.calls wires.new)
            × IsPacketTaken me now packet bytes.now self.old calls self.new }
    {
        let here = Here { me, moment: now };
        take(
            wires,
            &mut self.resolver,
            &here,
            &mut self.requesters,
            packet,
            bytes,
        )
    }

    /// Asks what an ITR asks, as `take` does for a packet with its request. Returns the number of the lookup's ticket
    /// if a lookup starts and the ITR waits; None if the outcome is remembered, or the ask is refused.
    pub fn ask<W: Wires>(
        &mut self,
        wires: &mut W,
        me: Locator,
        now: Moment,
        request: ItrRequest,
    ) -> Option<u64>
        ensures waits { IfSome result (λ t. self.new.desk ≡ with_requester self.old.desk t (Itr request)) }
        ensures none { IfNone result (self.new.desk ≡ self.old.desk) }
        ensures asks { (calls : List ACall) × RecordsCalls (W.calls wires.old) calls (W.calls wires.new)
            × AsksForItr me now request self.old calls self.new }
    {
        let here = Here { me, moment: now };
        ask_for_itr(
            wires,
            &mut self.resolver,
            &here,
            request,
            &mut self.requesters,
        )
    }

    /// Handles a datagram that came to the resolver's socket and isn't an Encapsulated Control Message, as `take` does.
    /// Returns the end of the ITR's lookup that it ended, and why a datagram from UDP port 4342 is ignored: 1
    /// Undecodable to 6 NoServers. One that makes a lookup go on or end isn't ignored, nor is one that is lost for want
    /// of memory.
    pub fn hear<W: Wires>(
        &mut self,
        wires: &mut W,
        me: Locator,
        now: Moment,
        packet: Packet,
        bytes: &[u8],
    ) -> DatagramOutcome
        requires { is_of Encapsulated bytes.now ≡ false }
        ensures came { IsPacketOutcome now packet.from bytes.now self.old self.new
            (outcome_of_reply packet.from result.ended) }
        ensures taken { (calls : List ACall) × RecordsCalls (W.calls wires.old) calls (W.calls wires.new)
            × IsPacketTaken me now packet bytes.now self.old calls self.new }
        ensures ignored { IfSome result.ignored (IsIgnored now packet bytes.now self.old) }
        ensures used { IfNone result.ignored ((why : Reason) → IsIgnored now packet bytes.now self.old why → ⊥) }
    {
        let here = Here { me, moment: now };
        hear(
            wires,
            &mut self.resolver,
            &here,
            &mut self.requesters,
            packet,
            bytes,
        )
    }

    /// Ticks once: a lookup whose deadline has come goes on or ends. Returns the end of a lookup that an ITR waited
    /// for; the ITR then has its reply as by `take`. If out of memory, the deadline is due again at the next tick. A
    /// tick does nothing before the resolver's next deadline.
    pub fn tick<W: Wires>(&mut self, wires: &mut W, me: Locator, now: Moment) -> Option<Ended>
        ensures ended { HasEndedBy Tick (moved now self.old.state) self.new.state
            self.old.desk.waiting self.new.desk.waiting result }
        ensures resolves { (calls : List ACall) × RecordsCalls (W.calls wires.old) calls (W.calls wires.new)
            × HearsOrTicks me now Tick self.old calls self.new }
    {
        let here = Here { me, moment: now };
        let heard = resolve(
            wires,
            &mut self.resolver,
            &here,
            &mut self.requesters,
            Input::Tick,
        );
        heard.ended
    }

    /// Lets the pending lookup whose last request has this nonce go on or end at once, as by a tick that finds it due.
    /// Returns the end of a lookup that an ITR waited for; the ITR then has its reply as by `take`. If out of memory,
    /// nothing is done.
    pub fn hasten<W: Wires>(
        &mut self,
        wires: &mut W,
        me: Locator,
        now: Moment,
        nonce: u64,
    ) -> Option<Ended>
        ensures ended { HasEndedByHaste nonce (moved now self.old.state) self.new.state
            self.old.desk.waiting self.new.desk.waiting result }
        ensures hastens { (calls : List ACall) × RecordsCalls (W.calls wires.old) calls (W.calls wires.new)
            × Hastens me now nonce self.old calls self.new }
    {
        let here = Here { me, moment: now };
        hasten(
            wires,
            &mut self.resolver,
            &here,
            &mut self.requesters,
            nonce,
        )
    }

    /// Sends the last request of the pending lookup with this nonce again, unchanged. Sends nothing if no pending
    /// lookup has it, or if out of memory.
    pub fn resend<W: Wires>(&self, wires: &mut W, me: Locator, nonce: u64)
        ensures { (calls : List ACall) × RecordsCalls (W.calls wires.old) calls (W.calls wires.new)
            × Resends me nonce self.now.state calls }
    {
        resend(wires, &self.resolver, me, nonce);
    }

    /// Sends an ITR the reply of a lookup that it shared, as `take` does for the first one: the negative Map-Reply for
    /// a hole or a site that isn't registered, and nothing for another end. It allocates nothing.
    pub fn tell<W: Wires>(
        &mut self,
        wires: &mut W,
        me: Locator,
        request: &ItrRequest,
        end: &Result<Outcome, Why>,
    )
        ensures same { self.new ≡ self.old }
        ensures told { (calls : List ACall) × RecordsCalls (W.calls wires.old) calls (W.calls wires.new)
            × IsToldEnd me end.now request.now calls }
    {
        tell_itr(wires, me, &mut self.requesters, request, end);
    }

    /// The number of the ticket of a pending lookup whose ITR asked for this identifier; None if there is none. Another
    /// ITR that asks for it may share this lookup (RFC 8111, section 8.1.1).
    pub fn ticket_for(&self, x: Xeid) -> Option<u64>
        ensures asked { IfSome result (λ t. IsAskedBy self.now.desk.waiting t x) }
        ensures none { IfNone result ((t : ℕ) → IsAskedBy self.now.desk.waiting t x → ⊥) }
    {
        self.requesters.ticket_for(x)
    }

    /// The longest remembered match for an identifier, or the root's servers. Only the time changes.
    pub fn longest(&mut self, now: Moment, x: Xeid) -> (Prefix, Entry)
        ensures found { IsFound (moved now self.old.state).known (xeid_path x) result.0 result.1 }
        ensures time { self.new ≡ running (moved now self.old.state) self.old.desk }
    {
        self.resolver.longest(now, x)
    }

    /// The beginning of a lookup of an identifier, if it were asked for now. Only the time changes.
    pub fn beginning(&mut self, now: Moment, x: Xeid) -> Beginning
        ensures begins { (p : _) × (e : _) × IsFound (moved now self.old.state).known (xeid_path x) p e
            × (result ≡ beginning_at p e) }
        ensures time { self.new ≡ running (moved now self.old.state) self.old.desk }
    {
        self.resolver.beginning(now, x)
    }

    /// Forgets what is remembered of a prefix, and returns whether something was. Pending lookups and their requesters
    /// stay.
    pub fn forget(&mut self, prefix: Prefix) -> bool
        ensures forgotten { self.new ≡ running (forgotten self.old.state prefix) self.old.desk }
        ensures there { result ≡ map.contains_key self.old.state.known.live prefix }
    {
        self.resolver.forget(prefix)
    }
}

/// A law of runs: packets that are handled or dropped, ticks, lookups that are hastened or shared, prefixes that are
/// forgotten, and other resolvers that continue in its place, in any order and number. If packets from the servers that
/// were asked are true, each negative Map-Reply is for what the register assigns to an ITR's identifier, and each of
/// its requests gets at most one. No reply is cut to its zone, and the resolver stays sound.
pub fn fair_runs_are_right()
    ensures { FairRunsAreRight }
{
    a_step_keeps_a_resolver_sound();
    a_step_keeps_starts_true();
    honest_replies_are_inside();
}
