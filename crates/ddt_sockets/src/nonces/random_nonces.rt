//! Wires that send requests with random nonces.

ghost use Rattle.std.specs.Prelude.{◌≡◌, [], length, IfSome};
ghost use Rattle.ddt_sockets.specs.Nonces.Outstanding.{IsOutstanding};
ghost use Rattle.ddt_sockets.specs.Nonces.Translation.{IsTranslation, forgotten};

use crate::nonces::call_log::CallLog;
use crate::nonces::nonce_translator::NonceTranslator;
use crate::nonces::outstanding_requests::Overdue;
use crate::nonces::servers::{Servers, SilenceChange};
use crate::{NetFault, Packet, Wires};
use ddt_path::Locator;
use rand_core::Rng;
use std::alloc::Global;
use std::marker::Model;

/// Wires that send requests with random nonces, so that only who sees a request can answer it (RFC 8111, section 5; RFC
/// 9301, section 5.2).
///
/// A DDT client's request to UDP port 4342 is sent with a nonce of the generator, and its reply is returned with the
/// client's own nonce. A Map-Referral that answers no outstanding request is lost, as a datagram that couldn't be
/// received: refused as 1 Receive. Any other datagram is sent and received unchanged.
///
/// The wires measure how fast each server answers, report overdue replies, and send nothing to a silent server: refused
/// as 2 Send.
#[derive(Drop)]
pub struct RandomNonces<W: Wires + Drop, R: Rng + Drop> {
    wires: W,
    asking: NonceTranslator<R>,
    told: CallLog,
}

impl<W: Wires + Drop, R: Rng + Drop> Model for RandomNonces<W, R> {
    ghost use Rattle.ddt_sockets.specs.Nonces.Translation.{Translation, IsTranslation};

    ghost Value = { Translation };

    ghost view = { λ v. record {
      told = v.told.calls;
      below = W.calls v.wires;
      sent = v.asking.outstanding.sent.items;
    } };

    ghost invariant = { λ v. IsTranslation (record {
      told = v.told.calls;
      below = W.calls v.wires;
      sent = v.asking.outstanding.sent.items;
    }) };
}

impl<W: Wires + Drop, R: Rng + Drop> RandomNonces<W, R> {
    /// Creates wires over `wires`, which have recorded no call yet, with the nonces of a generator. With `tells` they
    /// record their own calls. The current moment is 0.
    pub fn new(alloc: Global, wires: W, nonces: R, tells: bool) -> RandomNonces<W, R>
        requires { IfSome (W.calls wires) (λ calls. calls ≡ []) }
    {
        let asking = NonceTranslator::new(alloc, nonces);
        let told = CallLog::new(alloc, tells);
        RandomNonces {
            wires,
            asking,
            told,
        }
    }

    /// The wires below.
    pub fn wires(&self) -> &W {
        &self.wires
    }

    /// The wires below, mutable, as when sockets are bound anew. From then on no call is recorded.
    pub fn wires_mut(&mut self) -> &mut W {
        self.told.calls = None;
        &mut self.wires
    }

    /// The number of outstanding requests.
    pub fn outstanding(&self) -> usize
        ensures { result ≡ length self.now.sent }
    {
        self.asking.outstanding.len()
    }

    /// The number of Map-Referrals received that answer no outstanding request. They are lost.
    pub fn unasked(&self) -> u64 {
        self.asking.unasked
    }

    /// A law: the recorded calls are a translation of those below. The call does nothing.
    pub fn is_translation(&self)
        ensures { IsTranslation self.now }
    {
        let _told = &self.told;
    }

    /// Forgets all outstanding and all unsent requests, as when a resolver's memory is flushed. What is known of
    /// servers stays.
    pub fn forget_all(&mut self)
        ensures { self.new ≡ forgotten self.old }
    {
        self.asking.outstanding.forget_all();
        self.asking.refused.forget_all();
    }

    /// Sets the current moment, in milliseconds.
    pub fn set_time(&mut self, now: u64)
        ensures { self.new ≡ self.old }
    {
        self.asking.now = now;
    }

    /// Sets whether requests to silent servers are refused, as they are at first. A caller that has no other server
    /// left sets it to false.
    pub fn pass_over_silent(&mut self, on: bool)
        ensures { self.new ≡ self.old }
    {
        self.asking.passes_over = on;
    }

    /// Removes and returns the sender's nonce of the oldest unsent request. At most 1,024 are kept; one more drops the
    /// oldest.
    pub fn take_unsent(&mut self) -> Option<u64>
        ensures { self.new ≡ self.old }
    {
        self.asking.refused.take()
    }

    /// Returns the outstanding request with the earliest timer and clears that timer; None if no timer is due. Its
    /// reply is overdue. It stays outstanding, so a late reply is still received.
    pub fn take_overdue(&mut self) -> Option<Overdue>
        ensures outstanding { IfSome result (λ overdue. IsOutstanding overdue.nonce overdue.to self.old.sent) }
        ensures same { self.new ≡ self.old }
    {
        self.asking.take_overdue()
    }

    /// The earliest timer of an outstanding request, in milliseconds.
    pub fn next_timer(&self) -> Option<u64> {
        self.asking.outstanding.next_timer()
    }

    /// Restarts the timer of the newest outstanding request with this sender's nonce; it is due in `wait` milliseconds.
    pub fn restart_timer(&mut self, nonce: u64, wait: u64)
        ensures { self.new ≡ self.old }
    {
        let due = self.asking.now.saturating_add(wait);
        self.asking.outstanding.set_timer(nonce, due);
    }

    /// What is known of each server.
    pub fn servers(&self) -> &Servers {
        &self.asking.servers
    }

    /// Returns a server that became silent, or answers again, and that the log doesn't report so yet. From then on it
    /// is taken as logged.
    pub fn take_silence_change(&mut self) -> Option<SilenceChange>
        ensures { self.new ≡ self.old }
    {
        self.asking.servers.take_silence_change(self.asking.now)
    }
}

impl<W: Wires + Drop, R: Rng + Drop> Wires for RandomNonces<W, R> {
    ghost calls = { λ v. v.told };

    fn receive(&mut self, at: Locator, buffer: &mut [u8]) -> Result<Option<Packet>, NetFault> {
        let answer = self.asking.receive(&mut self.wires, at, buffer);
        self.told.note_received(at, answer, buffer);
        answer
    }

    fn send(&mut self, at: Locator, to: Locator, port: u16, bytes: &[u8]) -> Result<(), NetFault> {
        let answer = self.asking.send(&mut self.wires, at, to, port, bytes);
        self.told.note_tried(at, to, port, bytes, answer);
        answer
    }
}
