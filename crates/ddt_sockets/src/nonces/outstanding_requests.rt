//! The requests that were sent and have no reply yet, with both nonces of each.

ghost use Rattle.std.specs.List.{list_any};
ghost use Rattle.std.specs.Prelude.{◌≡◌, ◌≢◌, ◌==◌, ◌<◌, [], false, All, length, position, OnOk, OnErr, IfSome};
ghost use Rattle.ddt_sockets.specs.Nonces.Outstanding.{IsOutstanding, Takes, noted, is_reply_to};

use ddt_path::Locator;
use std::alloc::{AllocError, Global};
use std::collections::VecDeque;
use std::marker::Model;

/// The most outstanding requests.
pub const MOST_OUTSTANDING: usize = 1024;

/// A request without a reply. Clauses see its addresses and its two nonces; no answer depends on its times.
#[derive(Debug, Drop)]
pub struct SentRequest {
    /// The sending socket.
    pub at: Locator,
    /// The server.
    pub to: Locator,
    /// The nonce on the wire.
    pub wire: u64,
    /// The sender's nonce.
    pub plain: u64,
    /// The moment at which it was sent, in milliseconds.
    pub sent_at: u64,
    /// The moment, in milliseconds, at which the reply is overdue; None after that was reported.
    pub timer: Option<u64>,
}

impl Model for SentRequest {
    ghost use Rattle.ddt_sockets.specs.Nonces.Outstanding.{Request};

    ghost Value = { Request };

    ghost view = { λ s. record { at = s.at; to = s.to; wire = s.wire; plain = s.plain } };
}

/// A request whose reply is overdue.
#[derive(Clone, Copy, Debug, PartialEq, Eq)]
pub struct Overdue {
    /// The sender's nonce.
    pub nonce: u64,
    /// The server.
    pub to: Locator,
}

/// The requests without a reply, in the order of sending. At most `MOST_OUTSTANDING` are kept; one more drops the
/// oldest.
#[derive(Debug, Drop)]
pub struct Outstanding {
    sent: VecDeque<SentRequest>,
}

impl Outstanding {
    /// Creates an empty queue.
    pub fn new(alloc: Global) -> Outstanding
        ensures { result.sent.items ≡ [] }
    {
        Outstanding {
            sent: VecDeque::new(alloc),
        }
    }

    /// The number of outstanding requests.
    pub fn len(&self) -> usize
        ensures { result ≡ length self.now.sent.items }
    {
        self.sent.len()
    }

    /// Whether a request with this nonce on the wire is outstanding.
    pub fn has(&self, wire: u64) -> bool
        ensures exact { result ≡ list_any (λ s. s.wire == wire) self.now.sent.items }
        ensures unused { result ≡ false → All (λ s. s.wire ≢ wire) self.now.sent.items }
    {
        self.sent.iter().any(|sent| sent.wire == wire)
    }

    /// Appends a request. Fails only if out of memory; then nothing changes.
    pub fn note(&mut self, sent: SentRequest) -> Result<(), AllocError>
        ensures noted { OnOk result (self.new.sent.items ≡ noted self.old.sent.items sent) }
        ensures unchanged { OnErr result (self.new.sent.items ≡ self.old.sent.items) }
    {
        self.sent.push_back(sent)?;
        if self.sent.len() > MOST_OUTSTANDING {
            let _oldest = self.sent.pop_front();
        }
        Ok(())
    }

    /// Removes and returns the request that a reply answers, by the socket, the source address and the nonce on the
    /// wire.
    pub fn take(&mut self, at: Locator, from: Locator, wire: u64) -> Option<SentRequest>
        ensures { Takes at from wire self.old.sent.items self.new.sent.items result }
    {
        let place = place_of(&self.sent, at, from, wire)?;
        self.sent.remove(place)
    }

    /// Removes all requests.
    pub fn forget_all(&mut self)
        ensures { self.new.sent.items ≡ [] }
    {
        self.sent.clear();
    }

    /// Sets the timer of the newest outstanding request with this sender's nonce, if there is one, to a moment in
    /// milliseconds.
    pub fn set_timer(&mut self, plain: u64, at: u64)
        ensures { self.new.sent.items ≡ self.old.sent.items }
    {
        if let Some(place) = newest_of(&self.sent, plain) {
            let sent = &mut self.sent[place];
            sent.timer = Some(at);
        }
    }

    /// The earliest timer, in milliseconds.
    pub fn next_timer(&self) -> Option<u64> {
        first_timer(&self.sent).map(|first| first.1)
    }

    /// Returns the request with the earliest timer and clears that timer; None if no timer is due at `now`, in
    /// milliseconds. The request stays outstanding.
    pub fn take_overdue(&mut self, now: u64) -> Option<Overdue>
        ensures outstanding { IfSome result (λ overdue. IsOutstanding overdue.nonce overdue.to self.old.sent.items) }
        ensures same { self.new.sent.items ≡ self.old.sent.items }
    {
        let (place, timer) = first_timer(&self.sent)?;
        if timer > now {
            return None;
        }
        let sent = &mut self.sent[place];
        sent.timer = None;
        Some(Overdue {
            nonce: sent.plain,
            to: sent.to,
        })
    }
}

/// The index of the first request that a reply answers.
fn place_of(sent: &VecDeque<SentRequest>, at: Locator, from: Locator, wire: u64) -> Option<usize>
    ensures { result ≡ position (λ s. is_reply_to at from wire s) sent.now.items }
{
    sent.iter()
        .position(|s| s.wire == wire && s.at == at && s.to == from)
}

/// The index of the newest request with this sender's nonce.
fn newest_of(sent: &VecDeque<SentRequest>, plain: u64) -> Option<usize>
    ensures { IfSome result (λ place. place < length sent.now.items) }
{
    let len = sent.len();
    for newer in 0..len {
        let place = len - 1 - newer;
        if sent[place].plain == plain {
            return Some(place);
        }
    }
    None
}

/// The index of a request with the earliest timer, and that timer.
fn first_timer(sent: &VecDeque<SentRequest>) -> Option<(usize, u64)>
    ensures { IfSome result (λ first. first.0 < length sent.now.items) }
{
    let mut first = None;
    for place in 0..sent.len() {
        if let Some(timer) = sent[place].timer
            && is_earlier(timer, first)
        {
            first = Some((place, timer));
        }
    }
    first
}

/// Whether a timer is earlier than the earliest so far.
fn is_earlier(timer: u64, first: Option<(usize, u64)>) -> bool {
    match first {
        Some((_place, earliest)) => timer < earliest,
        None => true,
    }
}
