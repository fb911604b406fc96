//! The rounds of a Map-Resolver between ITRs, servers and Map-Servers.

ghost use Rattle.std.specs.FinMap as map;
ghost use Rattle.ddt_path.specs.Path.{xeid_path};
ghost use Rattle.ddt_cache.specs.Found.{IsFound};
ghost use Rattle.ddt_resolver.specs.State.{forgotten, most_pending, moved};
ghost use Rattle.ddt_resolver.specs.Table.{IsNoneDue};
ghost use Rattle.std.specs.Prelude.{◌≡◌, ◌⊎◌, ◌<◌, ◌≤◌, ◌++◌, ◌∷◌, ℕ, [], false, true, List, length, None, Some, IfOk, IfErr, IfSome, IsOk, OnOk, OnErr};
ghost use Rattle.std.specs.VecDeque.{deque_capacity};
ghost use Rattle.ddt_sockets.specs.declared.wire_calls.Call.{Call as ACall};
ghost use Rattle.ddt_sockets.specs.Calls.{RecordsCalls};
ghost use Rattle.ddt_sockets.specs.Turns.{AreTried, most_bytes};
ghost use Rattle.ddt_wire.specs.declared.message_type.MessageType.TheVariants.{Encapsulated};
ghost use Rattle.ddt_wire.specs.MessageType.{is_of};
ghost use Rattle.ddt_loop.specs.Acts.{running, AsksForItr, IsToldItr, Resends};
ghost use Rattle.ddt_loop.specs.Requesters.{opening_desk};
ghost use Rattle.ddt_ecm.specs.UdpHeader.{control_port};
ghost use Rattle.ddt_daemon.specs.declared.itr_requests.WaitingRequest.{WaitingRequest as AWaitingRequest};
ghost use Rattle.ddt_foreign.specs.Plain.{plain_in};
ghost use Rattle.ddt_daemon.specs.Admitted.{HasRoomToWait, IsDropped, IsGranted, IsPlaced, IsRefusedPlace, IsRefusedWait, IsRememberedAt};
ghost use Rattle.ddt_daemon.specs.Recent.{coming, IsNew};
ghost use Rattle.ddt_daemon.specs.Goes.{AreClosed, IsSharerTold, goes_on};
ghost use Rattle.ddt_daemon.specs.Counted.{nothing_counted, with_dropped};
ghost use Rattle.ddt_daemon.specs.Spelled.{IsAskedFor, IsSpelledAs};
ghost use Rattle.ddt_resolver.specs.declared.pending.Pending.{Pending as APending};
ghost use Rattle.ddt_daemon.specs.Resolving.{resolving, at_moment};
ghost use Rattle.ddt_daemon.specs.Rounds.{was_there, HasWaited, IsHandled, IsRound, IsTick, IsHastened, AreTicks, IsAsked, IsHeard, HearsReply, HearsSpelled, KeepsAsked, WaitsAs};

use crate::admission::{Admitted, Dropped, Lookup, Place, Ready, Waiter, allowed_request};
use crate::counts::ResolverCounts;
use crate::etr_forward::send_on;
use crate::itr_requests::{WaitingRequest, WaitingRequests};
use crate::log_events::{GivenUpLookup, UnrecognizedMessage, gave_up};
use crate::log_queue::LogQueue;
use crate::recent_requests::{Recent, RecentRequests};
use byteorder::{BigEndian, ByteOrder};
use ddt_cache::{Entry, Moment};
use ddt_config::settings::Settings;
use ddt_ecm::CONTROL_PORT;
use ddt_foreign::{ForeignFault, plain_referral, read_foreign};
use ddt_loop::{DatagramOutcome, Ended, RunningResolver};
use ddt_path::{Listed, Locator, LocatorSet, Prefix, Xeid};
use ddt_resolver::{Beginning, ItrRequest, MOST_PENDING, Resolver};
use ddt_sockets::{Packet, Wires};
use ddt_trie::PrefixMap;
use ddt_wire::MessageType;
use std::alloc::{AllocError, Global};

/// The bytes of a Map-Referral before its first record.
const BEFORE_RECORDS: usize = 12;

/// A Map-Resolver: a resolver, the requests of ITRs that wait for its lookups, and its counts. Its near wires lead to
/// ITRs and to the servers that it asks. Its far wires lead to Map-Servers, to which it forwards the ITRs' own
/// requests.
#[derive(Drop)]
pub struct MapResolver<M: PrefixMap<Entry>> {
    alloc: Global,
    running: RunningResolver<M>,
    waiting: WaitingRequests,
    counts: ResolverCounts,
    /// The recent requests.
    recent: RecentRequests,
    /// The lookups that gave up and aren't logged yet.
    gave_up: LogQueue<GivenUpLookup>,
    /// The messages that were dropped for their AFI and aren't logged yet.
    unrecognized: LogQueue<UnrecognizedMessage>,
}

/// The end of a lookup, and the source of the datagram that ended it, if one did.
#[derive(Clone, Copy, Debug)]
struct Closing {
    me: Locator,
    by: Option<Locator>,
    ended: Ended,
}

impl<M: PrefixMap<Entry>> MapResolver<M> {
    /// A Map-Resolver without waiting requests, and with all counts 0.
    pub fn new(alloc: Global, resolver: Resolver<M>) -> Result<MapResolver<M>, AllocError>
        ensures running { IfOk result (λ it. it.running ≡ running resolver (opening_desk [])) }
        ensures waiting { IfOk result (λ it. it.waiting.kept.items ≡ []) }
        ensures counts { IfOk result (λ it. it.counts ≡ nothing_counted) }
        ensures recent { IfOk result (λ it. it.recent.places.items ≡ []) }
    {
        let running = RunningResolver::new(alloc, resolver)?;
        Ok(MapResolver {
            alloc,
            running,
            waiting: WaitingRequests::new(alloc),
            counts: ResolverCounts::default(),
            recent: RecentRequests::new(alloc),
            gave_up: LogQueue::new(alloc),
            unrecognized: LogQueue::new(alloc),
        })
    }

    /// Replaces the resolver. No requests wait for the new one; the counts stay. If out of memory, nothing changes.
    pub fn renew(&mut self, resolver: Resolver<M>) -> Result<(), AllocError>
        ensures running { OnOk result (self.new.running ≡ running resolver (opening_desk [])) }
        ensures waiting { OnOk result (self.new.waiting.kept.items ≡ []) }
        ensures counts { self.new.counts ≡ self.old.counts }
        ensures recent { self.new.recent.places.items ≡ self.old.recent.places.items }
        ensures unchanged { OnErr result ((self.new.running ≡ self.old.running)
            × (self.new.waiting.kept.items ≡ self.old.waiting.kept.items)) }
    {
        let running = RunningResolver::new(self.alloc, resolver)?;
        self.running = running;
        self.waiting = WaitingRequests::new(self.alloc);
        Ok(())
    }

    /// The counts.
    pub fn counts(&self) -> ResolverCounts
        ensures { result ≡ self.now.counts }
    {
        self.counts
    }

    /// The number of waiting requests of ITRs.
    pub fn waiting(&self) -> usize
        ensures { result ≡ length self.now.waiting.kept.items }
    {
        self.waiting.len()
    }

    /// Removes the first event of a lookup that gave up. Of more than 64 events the others are only counted, by
    /// `take_missed_give_ups`.
    pub fn take_give_up(&mut self) -> Option<GivenUpLookup>
        ensures running { self.new.running ≡ self.old.running }
        ensures waiting { self.new.waiting.kept.items ≡ self.old.waiting.kept.items }
        ensures counts { self.new.counts ≡ self.old.counts }
        ensures recent { self.new.recent.places.items ≡ self.old.recent.places.items }
    {
        self.gave_up.take()
    }

    /// The number of lookups that gave up and that `take_give_up` doesn't return, since the last call.
    pub fn take_missed_give_ups(&mut self) -> u64
        ensures running { self.new.running ≡ self.old.running }
        ensures waiting { self.new.waiting.kept.items ≡ self.old.waiting.kept.items }
        ensures counts { self.new.counts ≡ self.old.counts }
        ensures recent { self.new.recent.places.items ≡ self.old.recent.places.items }
    {
        self.gave_up.take_missed()
    }

    /// Removes the first event of a message that was dropped for its AFI. Of more than 64 events the others are only
    /// counted, by `take_missed_unrecognized`.
    pub fn take_unrecognized(&mut self) -> Option<UnrecognizedMessage>
        ensures running { self.new.running ≡ self.old.running }
        ensures waiting { self.new.waiting.kept.items ≡ self.old.waiting.kept.items }
        ensures counts { self.new.counts ≡ self.old.counts }
        ensures recent { self.new.recent.places.items ≡ self.old.recent.places.items }
    {
        self.unrecognized.take()
    }

    /// The number of messages dropped for their AFI that `take_unrecognized` doesn't return, since the last call.
    pub fn take_missed_unrecognized(&mut self) -> u64
        ensures running { self.new.running ≡ self.old.running }
        ensures waiting { self.new.waiting.kept.items ≡ self.old.waiting.kept.items }
        ensures counts { self.new.counts ≡ self.old.counts }
        ensures recent { self.new.recent.places.items ≡ self.old.recent.places.items }
    {
        self.unrecognized.take_missed()
    }

    /// The resolver.
    pub fn resolver(&self) -> &Resolver<M>
        ensures { result.now ≡ self.now.running.state }
    {
        self.running.resolver()
    }

    /// Drops the cached referral of a prefix. Returns whether there was one. Pending lookups continue.
    pub fn forget(&mut self, prefix: Prefix) -> bool
        ensures running { self.new.running ≡ running (forgotten self.old.running.state prefix) self.old.running.desk }
        ensures there { result ≡ map.contains_key self.old.running.state.known.live prefix }
        ensures waiting { self.new.waiting.kept.items ≡ self.old.waiting.kept.items }
        ensures counts { self.new.counts ≡ self.old.counts }
        ensures recent { self.new.recent.places.items ≡ self.old.recent.places.items }
    {
        self.running.forget(prefix)
    }

    /// The longest match in the cache for an identifier, or the root's servers. Nothing changes but the time.
    pub fn longest(&mut self, now: Moment, x: Xeid) -> (Prefix, Entry)
        ensures found { IsFound (moved now self.old.running.state).known (xeid_path x) result.0 result.1 }
        ensures time { self.new.running ≡ at_moment now self.old.running }
        ensures waiting { self.new.waiting.kept.items ≡ self.old.waiting.kept.items }
        ensures counts { self.new.counts ≡ self.old.counts }
        ensures recent { self.new.recent.places.items ≡ self.old.recent.places.items }
    {
        self.running.longest(now, x)
    }

    /// Receives once from the near wires, and handles the packet. Returns whether there was a packet, or one was lost.
    ///
    /// An Encapsulated Control Message is admitted if its source is allowed and it is a request of an ITR of at most
    /// 1,500 bytes. It must name none of the resolver's addresses and not come back from where it was forwarded, and
    /// the same request must not wait already. If the cache has the answer, the ITR gets it at once, however many
    /// requests wait. Otherwise the request shares the lookup of another ITR or starts one. Then fewer than 1,024
    /// requests may wait, fewer than 128 of them from its address, and fewer than 256 with lookups that begin at the
    /// same referral set.
    ///
    /// Any other datagram is read as a reply if it comes from UDP port 4342. A reply that covers more than the zone of
    /// its server is cut to that zone. If it ends a lookup, each waiting ITR is answered once: by the negative
    /// Map-Reply for a hole or a site that isn't registered. If the lookup ends as registered, each waiting request is
    /// forwarded once over the far wires to the server of the datagram, with its bit D set.
    pub fn receive<W: Wires, V: Wires>(
        &mut self,
        near: &mut W,
        far: &mut V,
        settings: &Settings,
        me: Locator,
        now: Moment,
        buffer: &mut [u8],
    ) -> bool
        requires { length buffer.old ≡ most_bytes }
        ensures round { (calls onward : List ACall) × RecordsCalls (W.calls near.old) calls (W.calls near.new)
            × RecordsCalls (V.calls far.old) onward (V.calls far.new) × (result ≡ was_there calls)
            × IsRound settings.now me now (resolving self.old.running self.old.waiting.kept.items self.old.counts
            self.old.recent.places.items)
            calls onward (resolving self.new.running self.new.waiting.kept.items self.new.counts
            self.new.recent.places.items) }
        ensures room { length buffer.new ≡ most_bytes }
    {
        match near.receive(me, buffer) {
            Ok(Some(packet)) => {
                let bytes = &buffer[..packet.len];
                self.handle_packet(near, far, settings, me, now, packet, bytes);
                true
            }
            Ok(None) => false,
            // One datagram is lost.
            Err(_fault) => true,
        }
    }

    /// Handles a packet with these bytes, or drops it.
    fn handle_packet<W: Wires, V: Wires>(
        &mut self,
        near: &mut W,
        far: &mut V,
        settings: &Settings,
        me: Locator,
        now: Moment,
        packet: Packet,
        bytes: &[u8],
    )
        ensures { (calls onward : List ACall) × RecordsCalls (W.calls near.old) calls (W.calls near.new)
            × RecordsCalls (V.calls far.old) onward (V.calls far.new)
            × IsHandled settings.now me now packet bytes.now
            (resolving self.old.running self.old.waiting.kept.items self.old.counts self.old.recent.places.items)
            calls onward (resolving self.new.running self.new.waiting.kept.items self.new.counts
            self.new.recent.places.items) }
    {
        if !MessageType::Encapsulated.is_of(bytes) {
            self.hear(near, far, me, now, packet, bytes);
            return;
        }
        match self.admit(settings, now, packet.from, bytes) {
            Ok(Admitted::Answered(ready)) => self.tell_at_once(near, me, ready),
            Ok(Admitted::Waits(waiter)) => self.ask(near, me, now, waiter),
            Err(why) => self.drop_one(packet.from, why),
        }
    }

    /// Sends an ITR the cached answer.
    fn tell_at_once<W: Wires>(&mut self, near: &mut W, me: Locator, ready: Ready)
        ensures told { (calls : List ACall) × RecordsCalls (W.calls near.old) calls (W.calls near.new)
            × IsToldItr me ready.outcome ready.request calls }
        ensures running { self.new.running ≡ self.old.running }
        ensures waiting { self.new.waiting.kept.items ≡ self.old.waiting.kept.items }
        ensures counts { self.new.counts ≡ self.old.counts }
        ensures recent { self.new.recent.places.items ≡ self.old.recent.places.items }
    {
        self.running
            .tell(near, me, &ready.request, &Ok(ready.outcome));
    }

    /// Counts a dropped message from an address, and queues it for the log if it was dropped for its AFI.
    fn drop_one(&mut self, from: Locator, why: Dropped)
        ensures counts { self.new.counts ≡ with_dropped self.old.counts why }
        ensures running { self.new.running ≡ self.old.running }
        ensures waiting { self.new.waiting.kept.items ≡ self.old.waiting.kept.items }
        ensures recent { self.new.recent.places.items ≡ self.old.recent.places.items }
    {
        self.counts.drop_one(why);
        if why == Dropped::UnrecognizedAfi {
            self.unrecognized.keep(UnrecognizedMessage::Request(from));
        }
    }

    /// Admits an Encapsulated Control Message with these bytes, or returns the reason why it is dropped. If it is to
    /// wait, there is room for it.
    fn admit(
        &mut self,
        settings: &Settings,
        now: Moment,
        from: Locator,
        bytes: &[u8],
    ) -> Result<Admitted, Dropped>
        ensures admitted { IfOk result (IsGranted settings.now self.old.waiting.kept.items
            (at_moment now self.old.running) from bytes.now) }
        ensures moved { OnOk result (self.new.running ≡ at_moment now self.old.running) }
        ensures room { IfOk result (HasRoomToWait (length self.new.waiting.kept.items)
            (deque_capacity self.new.waiting.kept)) }
        ensures dropped { IfErr result (IsDropped settings.now now (resolving self.old.running
            self.old.waiting.kept.items self.old.counts self.old.recent.places.items) from bytes.now) }
        ensures remembered { IfOk result (λ admitted. IsRememberedAt now self.old.recent.places.items admitted
            self.new.recent.places.items) }
        ensures recent { OnErr result (self.new.recent.places.items ≡ self.old.recent.places.items) }
        ensures waited { HasWaited now self.old.running self.new.running }
        ensures same { self.new.waiting.kept.items ≡ self.old.waiting.kept.items }
        ensures counts { self.new.counts ≡ self.old.counts }
    {
        let request = match allowed_request(settings, from, bytes) {
            Ok(request) => request,
            Err(why) => return Err(why),
        };
        if self.waiting.has(&request) {
            return Err(Dropped::Repeated);
        }
        match self.place(now, from, request.xeid) {
            Ok(Place::Answered(outcome)) => Ok(Admitted::Answered(Ready { request, outcome })),
            Ok(Place::Waits(lookup)) => match self.waiter(now, from, request, bytes) {
                Ok(bytes) => Ok(Admitted::Waits(Waiter {
                    request,
                    from,
                    lookup,
                    bytes,
                })),
                Err(why) => Err(why),
            },
            Err(why) => Err(why),
        }
    }

    /// How a request for an identifier from an address is answered, or the reason why it is dropped. The time advances
    /// to `now`.
    fn place(&mut self, now: Moment, from: Locator, x: Xeid) -> Result<Place, Dropped>
        ensures moved { self.new.running ≡ at_moment now self.old.running }
        ensures placed { IfOk result (IsPlaced self.old.waiting.kept.items (at_moment now self.old.running) from x) }
        ensures refused { IfErr result (IsRefusedPlace self.old.waiting.kept.items (at_moment now self.old.running)
            from x) }
        ensures same { self.new.waiting.kept.items ≡ self.old.waiting.kept.items }
        ensures counts { self.new.counts ≡ self.old.counts }
        ensures recent { self.new.recent.places.items ≡ self.old.recent.places.items }
    {
        let servers = match self.running.beginning(now, x) {
            Beginning::Answer(outcome) => return Ok(Place::Answered(outcome)),
            Beginning::Servers(servers) => servers,
        };
        if self.waiting.is_full() {
            return Err(Dropped::Full);
        }
        if self.waiting.is_full_of_source(from) {
            return Err(Dropped::SourceFull);
        }
        if let Some(ticket) = self.running.ticket_for(x) {
            return Ok(Place::Waits(Lookup::Shared(ticket)));
        }
        if self.waiting.is_full_of_set(&servers) {
            return Err(Dropped::SetFull);
        }
        Ok(Place::Waits(Lookup::Own(servers)))
    }

    /// A copy of the bytes of a request that is to wait, and room for it. The request is remembered. Refuses a request
    /// that comes back from where it was forwarded, and one for which there is no memory.
    fn waiter(
        &mut self,
        now: Moment,
        from: Locator,
        request: ItrRequest,
        bytes: &[u8],
    ) -> Result<Listed<u8>, Dropped>
        ensures bytes { IfOk result (λ copy. copy ≡ bytes.now) }
        ensures room { OnOk result (length self.new.waiting.kept.items < deque_capacity self.new.waiting.kept) }
        ensures remembered { OnOk result (IsNew self.old.recent.places.items (coming request from now)
            self.new.recent.places.items) }
        ensures refused { IfErr result (IsRefusedWait self.old.recent.places.items (coming request from now)) }
        ensures recent { OnErr result (self.new.recent.places.items ≡ self.old.recent.places.items) }
        ensures same { self.new.waiting.kept.items ≡ self.old.waiting.kept.items }
        ensures running { self.new.running ≡ self.old.running }
        ensures counts { self.new.counts ≡ self.old.counts }
    {
        let at = now.millis();
        let came = Recent { request, from, at };
        if self.recent.has_before(&came) {
            return Err(Dropped::Looped);
        }
        match self.room_for(bytes) {
            Ok(bytes) => {
                self.recent.remember(came);
                Ok(bytes)
            }
            Err(_refused) => Err(Dropped::Memory),
        }
    }

    /// A copy of a request's bytes, and room for one more waiting request.
    fn room_for(&mut self, bytes: &[u8]) -> Result<Listed<u8>, AllocError>
        ensures bytes { IfOk result (λ copy. copy ≡ bytes.now) }
        ensures room { OnOk result (length self.new.waiting.kept.items < deque_capacity self.new.waiting.kept) }
        ensures same { self.new.waiting.kept.items ≡ self.old.waiting.kept.items }
        ensures running { self.new.running ≡ self.old.running }
        ensures counts { self.new.counts ≡ self.old.counts }
        ensures recent { self.new.recent.places.items ≡ self.old.recent.places.items }
    {
        self.waiting.reserve()?;
        let bytes = Vec::from_slice(self.alloc, bytes)?;
        Ok(Listed::of(bytes))
    }

    /// Starts a lookup for a request, or has it share one. A request that waits is stored.
    fn ask<W: Wires>(&mut self, near: &mut W, me: Locator, now: Moment, waiter: Waiter)
        requires room { length self.old.waiting.kept.items < deque_capacity self.old.waiting.kept }
        ensures { (calls : List ACall) × RecordsCalls (W.calls near.old) calls (W.calls near.new)
            × IsAsked me now waiter (resolving self.old.running self.old.waiting.kept.items self.old.counts
            self.old.recent.places.items) calls
            (resolving self.new.running self.new.waiting.kept.items self.new.counts self.new.recent.places.items) }
    {
        let lookup = waiter.lookup;
        match lookup {
            Lookup::Shared(ticket) => {
                self.counts.share_one();
                self.keep(ticket, None, waiter);
            }
            Lookup::Own(servers) => self.begin(near, me, now, servers, waiter),
        }
    }

    /// Starts a lookup for a request. The request is stored under the lookup's ticket, if the lookup has started.
    fn begin<W: Wires>(
        &mut self,
        near: &mut W,
        me: Locator,
        now: Moment,
        servers: LocatorSet,
        waiter: Waiter,
    )
        requires room { length self.old.waiting.kept.items < deque_capacity self.old.waiting.kept }
        ensures asks { (calls : List ACall) × RecordsCalls (W.calls near.old) calls (W.calls near.new)
            × AsksForItr me now waiter.request self.old.running calls self.new.running }
        ensures keeps { KeepsAsked servers waiter.from waiter.bytes waiter.request
            (resolving self.old.running self.old.waiting.kept.items self.old.counts self.old.recent.places.items)
            (resolving self.new.running self.new.waiting.kept.items self.new.counts self.new.recent.places.items) }
    {
        let ticket = self.running.ask(near, me, now, waiter.request);
        if let Some(ticket) = ticket {
            self.counts.start_one();
            self.keep(ticket, Some(servers), waiter);
        }
    }

    /// Stores a request that waits for the lookup of a ticket. `begins` has the servers at which its own lookup began;
    /// None if it shares the lookup.
    fn keep(&mut self, ticket: u64, begins: Option<LocatorSet>, waiter: Waiter)
        requires room { length self.old.waiting.kept.items < deque_capacity self.old.waiting.kept }
        ensures kept { (k : AWaitingRequest) × (self.new.waiting.kept.items ≡ self.old.waiting.kept.items ++ k ∷ [])
            × (k.ticket ≡ ticket) × WaitsAs begins waiter.from waiter.bytes waiter.request k }
        ensures running { self.new.running ≡ self.old.running }
        ensures counts { self.new.counts ≡ self.old.counts }
        ensures recent { self.new.recent.places.items ≡ self.old.recent.places.items }
    {
        self.waiting.add(WaitingRequest {
            ticket,
            request: waiter.request,
            from: waiter.from,
            begins,
            bytes: waiter.bytes,
        });
    }

    /// Handles a packet whose bytes are no Encapsulated Control Message.
    fn hear<W: Wires, V: Wires>(
        &mut self,
        near: &mut W,
        far: &mut V,
        me: Locator,
        now: Moment,
        packet: Packet,
        bytes: &[u8],
    )
        requires { is_of Encapsulated bytes.now ≡ false }
        ensures { (calls onward : List ACall) × RecordsCalls (W.calls near.old) calls (W.calls near.new)
            × RecordsCalls (V.calls far.old) onward (V.calls far.new)
            × IsHeard me now packet bytes.now
            (resolving self.old.running self.old.waiting.kept.items self.old.counts self.old.recent.places.items)
            calls onward (resolving self.new.running self.new.waiting.kept.items self.new.counts
            self.new.recent.places.items) }
    {
        if packet.port != CONTROL_PORT {
            return;
        }
        match self.spelled(packet.from, bytes) {
            Ok(None) => self.hear_spelled(near, far, me, now, packet, bytes),
            Ok(Some(plain)) => self.hear_spelled(near, far, me, now, packet, plain.as_slice()),
            // A reply is lost.
            Err(_refused) => {}
        }
    }

    /// The datagram to handle instead of one from an address: what it says of the identifier that its nonce asks for,
    /// in the core's spelling. None if the datagram is handled as it is. Runs out of memory only for a datagram of which
    /// something is taken for the identifier.
    fn spelled(&mut self, from: Locator, bytes: &[u8]) -> Result<Option<Listed<u8>>, AllocError>
        ensures spelled { IfOk result (IsSpelledAs self.old.running.state bytes.now) }
        ensures wanted { OnErr result ((t : ℕ) × (l : APending) × IsAskedFor self.old.running.state bytes.now t l
            × IsOk (plain_in l.x bytes.now)) }
        ensures running { self.new.running ≡ self.old.running }
        ensures waiting { self.new.waiting.kept.items ≡ self.old.waiting.kept.items }
        ensures counts { self.new.counts ≡ self.old.counts }
        ensures recent { self.new.recent.places.items ≡ self.old.recent.places.items }
    {
        if bytes.len() < BEFORE_RECORDS {
            return Ok(None);
        }
        let (_first, from_nonce) = bytes.split_at(4);
        let nonce = BigEndian::read_u64(from_nonce);
        let Some(asked) = self.running.resolver().identifier_of(nonce) else {
            return Ok(None);
        };
        let plain = plain_referral(self.alloc, bytes, asked)?;
        if plain.is_none() {
            self.note_unrecognized(from, bytes, asked);
        }
        Ok(plain)
    }

    /// Queues an unread Map-Referral for the log, if it has an unrecognized AFI.
    fn note_unrecognized(&mut self, from: Locator, bytes: &[u8], asked: Xeid)
        ensures running { self.new.running ≡ self.old.running }
        ensures waiting { self.new.waiting.kept.items ≡ self.old.waiting.kept.items }
        ensures counts { self.new.counts ≡ self.old.counts }
        ensures recent { self.new.recent.places.items ≡ self.old.recent.places.items }
    {
        if let Ok(Err(ForeignFault::UnrecognizedAfi)) = read_foreign(self.alloc, bytes, asked) {
            self.unrecognized.keep(UnrecognizedMessage::Referral(from));
        }
    }

    /// Handles a datagram with these bytes from UDP port 4342. If it covers more than the zone of its server, it is cut
    /// to that zone.
    fn hear_spelled<W: Wires, V: Wires>(
        &mut self,
        near: &mut W,
        far: &mut V,
        me: Locator,
        now: Moment,
        packet: Packet,
        bytes: &[u8],
    )
        requires plain { is_of Encapsulated bytes.now ≡ false }
        requires port { packet.port ≡ control_port }
        ensures { (calls onward : List ACall) × RecordsCalls (W.calls near.old) calls (W.calls near.new)
            × RecordsCalls (V.calls far.old) onward (V.calls far.new)
            × HearsSpelled me now packet bytes.now
            (resolving self.old.running self.old.waiting.kept.items self.old.counts self.old.recent.places.items)
            calls onward (resolving self.new.running self.new.waiting.kept.items self.new.counts
            self.new.recent.places.items) }
    {
        match self.running.resolver().cut_to_zone(packet.from, bytes) {
            Ok(None) => self.hear_reply(near, far, me, now, packet, bytes),
            Ok(Some(cut)) => {
                self.counts.cut_one();
                self.hear_reply(near, far, me, now, packet, cut.as_slice());
            }
            // A reply is lost.
            Err(_refused) => {}
        }
    }

    /// Has the resolver handle a datagram with these bytes from UDP port 4342. If it ends the lookup of an ITR, all
    /// waiting requests are answered or forwarded.
    fn hear_reply<W: Wires, V: Wires>(
        &mut self,
        near: &mut W,
        far: &mut V,
        me: Locator,
        now: Moment,
        packet: Packet,
        heard: &[u8],
    )
        requires plain { is_of Encapsulated heard.now ≡ false }
        requires port { packet.port ≡ control_port }
        ensures { (calls onward : List ACall) × RecordsCalls (W.calls near.old) calls (W.calls near.new)
            × RecordsCalls (V.calls far.old) onward (V.calls far.new)
            × HearsReply me now packet heard.now
            (resolving self.old.running self.old.waiting.kept.items self.old.counts self.old.recent.places.items)
            calls onward (resolving self.new.running self.new.waiting.kept.items self.new.counts
            self.new.recent.places.items) }
    {
        let DatagramOutcome { ended, ignored } = self.running.hear(near, me, now, packet, heard);
        self.counts.hear_one(ignored);
        if let Some(ended) = ended {
            self.counts.end_one(&ended.end);
            let by = Some(packet.from);
            self.close(near, far, &Closing { me, by, ended });
        }
    }

    /// Answers or forwards all requests that wait for an ended lookup.
    fn close<W: Wires, V: Wires>(&mut self, near: &mut W, far: &mut V, closing: &Closing)
        ensures closed { (calls onward : List ACall) × RecordsCalls (W.calls near.old) calls (W.calls near.new)
            × RecordsCalls (V.calls far.old) onward (V.calls far.new)
            × AreClosed closing.now.me closing.now.by closing.now.ended self.old.waiting.kept.items calls onward
            self.new.waiting.kept.items }
        ensures running { self.new.running ≡ self.old.running }
        ensures counts { self.new.counts ≡ self.old.counts }
        ensures recent { self.new.recent.places.items ≡ self.old.recent.places.items }
    {
        while let Some(kept) = self.waiting.take(closing.ended.ticket) {
            self.note_give_up(closing, &kept);
            self.tell_sharer(near, closing, &kept);
            send_kept(far, closing, kept.bytes);
        }
    }

    /// Queues the lookup that a request has started for the log, if the lookup gave up.
    fn note_give_up(&mut self, closing: &Closing, kept: &WaitingRequest)
        ensures running { self.new.running ≡ self.old.running }
        ensures waiting { self.new.waiting.kept.items ≡ self.old.waiting.kept.items }
        ensures counts { self.new.counts ≡ self.old.counts }
        ensures recent { self.new.recent.places.items ≡ self.old.recent.places.items }
    {
        if let Some(one) = gave_up(kept, &closing.ended.end) {
            self.gave_up.keep(one);
        }
    }

    /// Sends the end of a lookup to an ITR that shares it. The ITR that started the lookup has been answered already.
    fn tell_sharer<W: Wires>(&mut self, near: &mut W, closing: &Closing, kept: &WaitingRequest)
        ensures told { (calls : List ACall) × RecordsCalls (W.calls near.old) calls (W.calls near.new)
            × IsSharerTold closing.now.me closing.now.ended.end kept.now.begins kept.now calls }
        ensures running { self.new.running ≡ self.old.running }
        ensures waiting { self.new.waiting.kept.items ≡ self.old.waiting.kept.items }
        ensures counts { self.new.counts ≡ self.old.counts }
        ensures recent { self.new.recent.places.items ≡ self.old.recent.places.items }
    {
        if kept.begins.is_none() {
            self.running
                .tell(near, closing.me, &kept.request, &closing.ended.end);
        }
    }

    /// Ticks once: a lookup whose deadline has passed is retried or ends. Nothing is sent over the far wires.
    pub fn tick<W: Wires, V: Wires>(&mut self, near: &mut W, far: &mut V, me: Locator, now: Moment)
        ensures { (calls onward : List ACall) × RecordsCalls (W.calls near.old) calls (W.calls near.new)
            × RecordsCalls (V.calls far.old) onward (V.calls far.new)
            × IsTick me now (resolving self.old.running self.old.waiting.kept.items self.old.counts
            self.old.recent.places.items) calls onward
            (resolving self.new.running self.new.waiting.kept.items self.new.counts self.new.recent.places.items) }
    {
        let ended = self.running.tick(near, me, now);
        if let Some(ended) = ended {
            self.counts.end_one(&ended.end);
            let by = None;
            self.close(near, far, &Closing { me, by, ended });
        }
    }

    /// Retries or ends at once the pending lookup whose last request has this nonce, as a tick after its deadline does.
    pub fn hasten<W: Wires, V: Wires>(
        &mut self,
        near: &mut W,
        far: &mut V,
        me: Locator,
        now: Moment,
        nonce: u64,
    )
        ensures { (calls onward : List ACall) × RecordsCalls (W.calls near.old) calls (W.calls near.new)
            × RecordsCalls (V.calls far.old) onward (V.calls far.new)
            × IsHastened me now nonce (resolving self.old.running self.old.waiting.kept.items self.old.counts
            self.old.recent.places.items) calls
            onward (resolving self.new.running self.new.waiting.kept.items self.new.counts
            self.new.recent.places.items) }
    {
        let ended = self.running.hasten(near, me, now, nonce);
        if let Some(ended) = ended {
            self.counts.end_one(&ended.end);
            let by = None;
            self.close(near, far, &Closing { me, by, ended });
        }
    }

    /// Sends the last request of the pending lookup again, unchanged, if it has this nonce.
    pub fn resend<W: Wires>(&self, near: &mut W, me: Locator, nonce: u64)
        ensures { (calls : List ACall) × RecordsCalls (W.calls near.old) calls (W.calls near.new)
            × Resends me nonce self.now.running.state calls }
    {
        self.running.resend(near, me, nonce);
    }

    /// Ticks until no lookup is due, at most as often as lookups can be pending.
    pub fn tick_due<W: Wires, V: Wires>(
        &mut self,
        near: &mut W,
        far: &mut V,
        me: Locator,
        now: Moment,
    )
        ensures { (count : ℕ) × (calls onward : List ACall) × RecordsCalls (W.calls near.old) calls (W.calls near.new)
            × RecordsCalls (V.calls far.old) onward (V.calls far.new)
            × AreTicks me now (resolving self.old.running self.old.waiting.kept.items self.old.counts
            self.old.recent.places.items) count calls
            onward (resolving self.new.running self.new.waiting.kept.items self.new.counts self.new.recent.places.items)
            × ((count ≡ most_pending) ⊎ IsNoneDue self.new.running.state.pending now) }
    {
        for _tick in 0..MOST_PENDING {
            if !self.is_due(now) {
                return;
            }
            self.tick(near, far, me, now);
        }
    }

    /// Whether the deadline of a lookup has passed.
    fn is_due(&self, now: Moment) -> bool
        ensures { result ≡ false → IsNoneDue self.now.running.state.pending now }
    {
        match self.running.resolver().next_deadline() {
            Some(deadline) => deadline <= now.millis(),
            None => false,
        }
    }
}

/// Forwards the request of an ITR to the server whose datagram has ended its lookup as registered, if one has.
fn send_kept<V: Wires>(far: &mut V, closing: &Closing, bytes: Listed<u8>)
    ensures { (onward : List ACall) × RecordsCalls (V.calls far.old) onward (V.calls far.new)
        × AreTried closing.now.me (goes_on closing.now.by closing.now.ended.end bytes) onward }
{
    if let Some(by) = closing.by {
        let _sent = send_on(far, closing.me, by, &closing.ended.end, Some(bytes));
    }
}
