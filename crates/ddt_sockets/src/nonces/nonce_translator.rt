//! The translation of nonces: of requests that are sent, and of replies that are received.

ghost use Rattle.std.specs.Prelude.{◌≡◌, ◌≤◌, ℕ, [], ◌∷◌, List, length, take, Some, Ok, IfOk, IfSome, IfNone};
ghost use Rattle.ddt_path.specs.declared.xeid.Xeid.{Xeid as AXeid};
ghost use Rattle.ddt_sockets.specs.declared.wire_calls.Call.{Call as ACall};
ghost use Rattle.ddt_sockets.specs.declared.wire_calls.Call.TheVariants.{Received, Tried};
ghost use Rattle.ddt_sockets.specs.Calls.{RecordsCalls, received};
ghost use Rattle.ddt_sockets.specs.Nonces.Outstanding.{IsOutstanding};
ghost use Rattle.ddt_sockets.specs.Nonces.Translation.{IsAsked, IsDrawn, IsNumbered, IsPrepared, IsTranslated, with_nonce};

use crate::nonces::outstanding_requests::{Outstanding, Overdue, SentRequest};
use crate::nonces::servers::Servers;
use crate::nonces::unsent_nonces::UnsentNonces;
use crate::{NetFault, Packet, Wires};
use byteorder::{BigEndian, ByteOrder};
use ddt_ecm::{CONTROL_PORT, read_request, write_request};
use ddt_path::{Locator, Xeid};
use ddt_wire::MessageType;
use rand_core::Rng;
use std::alloc::Global;

/// The number of bytes of a Map-Referral before its nonce.
const BEFORE_NONCE: usize = 4;

/// The number of bytes of a Map-Referral up to the end of its nonce.
const NUMBERED: usize = 12;

/// The outstanding requests, those that weren't sent, and what is known of their servers.
#[derive(Drop)]
pub(crate) struct NonceTranslator<R: Rng + Drop> {
    pub alloc: Global,
    /// The generator of the nonces on the wire.
    pub nonces: R,
    pub outstanding: Outstanding,
    pub servers: Servers,
    pub refused: UnsentNonces,
    /// The current moment, in milliseconds.
    pub now: u64,
    /// Whether silent servers are passed over.
    pub passes_over: bool,
    /// The number of Map-Referrals received that answer no outstanding request.
    pub unasked: u64,
}

impl<R: Rng + Drop> NonceTranslator<R> {
    /// Creates a translator without requests and servers.
    pub fn new(alloc: Global, nonces: R) -> NonceTranslator<R>
        ensures { result.outstanding.sent.items ≡ [] }
    {
        NonceTranslator {
            alloc,
            nonces,
            outstanding: Outstanding::new(alloc),
            servers: Servers::new(alloc),
            refused: UnsentNonces::new(alloc),
            now: 0,
            passes_over: true,
            unasked: 0,
        }
    }

    /// Writes a request with a nonce of the generator, and makes it outstanding. None if its server is passed over, the
    /// nonce is in use or memory is short; then the outstanding requests don't change.
    fn prepare(&mut self, at: Locator, to: Locator, plain: u64, x: Xeid) -> Option<Vec<u8>>
        ensures prepared { IfSome result (λ bytes. IsPrepared at to plain x (R.stream self.old.nonces)
            self.old.outstanding.sent.items self.new.outstanding.sent.items bytes.items) }
        ensures unchanged { IfNone result (self.new.outstanding.sent.items ≡ self.old.outstanding.sent.items) }
    {
        if self.passes_over && self.servers.is_passed_over(to, self.now) {
            return None;
        }
        let wire = self.nonces.next_u64();
        if self.outstanding.has(wire) {
            return None;
        }
        let Ok(request) = write_request(self.alloc, wire, x, &[at], true) else {
            return None;
        };
        match self.outstanding.note(SentRequest {
            at,
            to,
            wire,
            plain,
            sent_at: self.now,
            timer: None,
        }) {
            Ok(()) => Some(request),
            Err(_refused) => None,
        }
    }

    /// Starts the timer of a request that was sent, or notes that it was refused.
    fn note_tried(&mut self, to: Locator, plain: u64, answer: &Result<(), NetFault>)
        ensures { self.new.outstanding.sent.items ≡ self.old.outstanding.sent.items }
    {
        match answer {
            Ok(()) => {
                let due = self.now.saturating_add(self.servers.first_wait(to));
                self.outstanding.set_timer(plain, due);
                self.servers.note_sent(to, self.now);
            }
            Err(_fault) => self.refused.note(plain),
        }
    }

    /// Sends a datagram over the wires below; a DDT client's request gets a nonce of the generator.
    pub fn send<W: Wires>(
        &mut self,
        wires: &mut W,
        at: Locator,
        to: Locator,
        port: u16,
        bytes: &[u8],
    ) -> Result<(), NetFault>
        ensures translated { (calls : List ACall) × RecordsCalls (W.calls wires.old) calls (W.calls wires.new)
            × IsTranslated self.old.outstanding.sent.items (Tried at to port bytes.now result) calls
            self.new.outstanding.sent.items }
        ensures drawn { IsDrawn at to (R.stream self.old.nonces) self.old.outstanding.sent.items
            self.new.outstanding.sent.items }
    {
        if port != CONTROL_PORT {
            return wires.send(at, to, port, bytes);
        }
        let Some((plain, x)) = asked_by_client(bytes) else {
            return wires.send(at, to, port, bytes);
        };
        let Some(request) = self.prepare(at, to, plain, x) else {
            self.refused.note(plain);
            return Err(NetFault::Send);
        };
        let answer = wires.send(at, to, port, &request);
        self.note_tried(to, plain, &answer);
        answer
    }

    /// Translates a packet received from the wires below, whose bytes are at the front of the buffer.
    fn lift(
        &mut self,
        at: Locator,
        packet: Packet,
        buffer: &mut [u8],
    ) -> Result<Option<Packet>, NetFault>
        requires { packet.len ≤ length buffer.old }
        ensures translated { IsTranslated self.old.outstanding.sent.items (received at result buffer.new)
            (Received at (length buffer.old) (Ok (Some packet)) (take packet.len buffer.old) ∷ [])
            self.new.outstanding.sent.items }
        ensures fits { IfOk result (λ answer. IfSome answer (λ p. p.len ≤ length buffer.new)) }
        ensures room { length buffer.new ≡ length buffer.old }
    {
        let Some(wire) = nonce_in(&buffer[..packet.len]) else {
            return Ok(Some(packet));
        };
        if packet.port != CONTROL_PORT {
            self.unasked = self.unasked.saturating_add(1);
            return Err(NetFault::Receive);
        }
        match self.outstanding.take(at, packet.from, wire) {
            Some(sent) => {
                let sent_at = sent.sent_at;
                self.servers
                    .note_reply(packet.from, self.now, self.now.saturating_sub(sent_at));
                put_nonce(&mut buffer[..packet.len], sent.plain);
                Ok(Some(packet))
            }
            None => {
                self.unasked = self.unasked.saturating_add(1);
                Err(NetFault::Receive)
            }
        }
    }

    /// Receives a datagram from the wires below; a reply to an outstanding request gets its sender's nonce.
    pub fn receive<W: Wires>(
        &mut self,
        wires: &mut W,
        at: Locator,
        buffer: &mut [u8],
    ) -> Result<Option<Packet>, NetFault>
        ensures translated { (calls : List ACall) × RecordsCalls (W.calls wires.old) calls (W.calls wires.new)
            × IsTranslated self.old.outstanding.sent.items (received at result buffer.new) calls
            self.new.outstanding.sent.items }
        ensures fits { IfOk result (λ answer. IfSome answer (λ p. p.len ≤ length buffer.new)) }
    {
        match wires.receive(at, buffer) {
            Ok(Some(packet)) => self.lift(at, packet, buffer),
            Ok(None) => Ok(None),
            Err(fault) => Err(fault),
        }
    }

    /// Returns the next request whose reply is overdue, and counts it for the server.
    pub fn take_overdue(&mut self) -> Option<Overdue>
        ensures outstanding { IfSome result (λ overdue.
            IsOutstanding overdue.nonce overdue.to self.old.outstanding.sent.items) }
        ensures same { self.new.outstanding.sent.items ≡ self.old.outstanding.sent.items }
    {
        let overdue = self.outstanding.take_overdue(self.now)?;
        self.servers.note_overdue(overdue.to);
        Some(overdue)
    }
}

/// The nonce and the identifier of a DDT client's request.
fn asked_by_client(bytes: &[u8]) -> Option<(u64, Xeid)>
    ensures found { IfSome result (λ r. IsAsked bytes.now r.0 r.1) }
    ensures none { IfNone result ((nonce : ℕ) (x : AXeid) → IsAsked bytes.now nonce x → ⊥) }
{
    match read_request(bytes) {
        Ok(request) => {
            if request.ddt() {
                Some((request.nonce(), request.xeid()))
            } else {
                None
            }
        }
        Err(_fault) => None,
    }
}

/// The nonce of a message of the type Map-Referral, in whatever spelling; None for another type, or if it is cut off.
fn nonce_in(bytes: &[u8]) -> Option<u64>
    ensures found { IfSome result (IsNumbered bytes.now) }
    ensures none { IfNone result ((nonce : ℕ) → IsNumbered bytes.now nonce → ⊥) }
{
    if !MessageType::MapReferral.is_of(bytes) {
        return None;
    }
    if bytes.len() < NUMBERED {
        return None;
    }
    let (_head, from_nonce) = bytes.split_at(BEFORE_NONCE);
    Some(BigEndian::read_u64(from_nonce))
}

/// Replaces the nonce of a Map-Referral.
fn put_nonce(bytes: &mut [u8], nonce: u64)
    requires { 12 ≤ length bytes.old }
    ensures { bytes.new ≡ with_nonce nonce bytes.old }
{
    bytes[4..12].copy_from_slice(&nonce.to_be_bytes());
}
