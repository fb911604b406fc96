//! The requesters that wait for each lookup, and the ends so far of the listed identifiers' lookups.

ghost use Rattle.std.specs.Prelude.{◌≡◌, ◌≢◌, ◌<◌, ◌==◌, ℕ, true, false, List, Some, length, position, IfOk, IfSome, IfNone};
ghost use Rattle.ddt_resolver.specs.declared.itr_messages.ItrRequest.{ItrRequest as ARequest};
ghost use Rattle.ddt_loop.specs.declared.requester.Requester.TheVariants.{Itr};
ghost use Rattle.ddt_loop.specs.Sharing.{IsAskedBy};
ghost use Rattle.ddt_sockets.specs.declared.wire_calls.Call.{Call as ACall};
ghost use Rattle.ddt_sockets.specs.Calls.{RecordsCalls};
ghost use Rattle.ddt_resolver.specs.State.{most_pending};
ghost use Rattle.ddt_loop.specs.declared.requester.Requester.{Requester as ARequester};
ghost use Rattle.ddt_loop.specs.Requesters.{Desk, opening_desk, with_requester, with_end, has_unresolved, TakesOff};
ghost use Rattle.ddt_loop.specs.Acts.{IsToldItr};

use crate::lookup_end::{LoopEnd, is_open, unresolved};
use crate::requester::{Requester, WaitingRequester};
use ddt_path::{Locator, Outcome, Xeid};
use ddt_resolver::{Front, ItrRequest, MOST_PENDING, MOST_REPLY_BYTES, Ticket};
use ddt_sockets::Wires;
use std::alloc::{AllocError, Global};
use std::collections::VecDeque;
use std::marker::Model;

/// All requesters that wait for a lookup, and the ends of the identifiers' lookups, in the order of the identifiers.
/// Contracts see both lists. The first is a queue, so that a removal from its middle moves only the shorter side. The
/// buffer of all replies to ITRs is allocated with them, so that a reply allocates nothing.
#[derive(Drop)]
pub(crate) struct Requesters {
    alloc: Global,
    waiting: VecDeque<WaitingRequester>,
    ends: Vec<LoopEnd>,
    reply: Vec<u8>,
}

impl Model for Requesters {
    ghost use Rattle.std.specs.Prelude.{◌≤◌, vec_capacity};
    ghost use Rattle.std.specs.VecDeque.{deque_capacity};
    ghost use Rattle.ddt_resolver.specs.State.{most_pending};
    ghost use Rattle.ddt_loop.specs.contracts.requester.WaitingRequester as owner;
    ghost use Rattle.ddt_loop.specs.contracts.lookup_end.LoopEnd as loop_end;
    ghost use Rattle.ddt_loop.specs.Requesters.{Desk, desk_code};

    ghost Value = { Desk };

    ghost coded = { desk_code owner.the_row.coded loop_end.the_row.coded };

    ghost view = { λ a. record { waiting = a.waiting.items; ends = a.ends.items } };

    // A negative Map-Reply has at most 52 bytes.
    ghost invariant = { λ a. (most_pending ≤ deque_capacity a.waiting) × (52 ≤ vec_capacity a.reply) };
}

impl Requesters {
    /// Creates the lists: no requester waits, and each identifier is unresolved. They have room for as many requesters
    /// as lookups can be pending, and for a reply. Fails only if out of memory.
    pub(crate) fn new(alloc: Global, ids: &[Xeid]) -> Result<Requesters, AllocError>
        ensures { IfOk result (λ requesters. requesters ≡ opening_desk ids.now) }
    {
        let waiting = VecDeque::with_capacity(alloc, MOST_PENDING)?;
        let reply = Vec::with_capacity(alloc, MOST_REPLY_BYTES)?;
        match unresolved(alloc, ids) {
            Ok(ends) => Ok(Requesters {
                alloc,
                waiting,
                ends,
                reply,
            }),
            Err(refused) => Err(refused),
        }
    }

    /// The allocator of the lists.
    pub(crate) fn alloc(&self) -> Global {
        self.alloc
    }

    /// Adds a requester that waits for the end of a lookup. It allocates nothing: there is room.
    pub(crate) fn add(&mut self, ticket: Ticket, requester: Requester)
        requires { length self.old.waiting < most_pending }
        ensures { self.new ≡ with_requester self.old ticket requester }
    {
        let ticket = ticket.number();
        let added: Result<_, _> = self
            .waiting
            .push_back(WaitingRequester { ticket, requester });
        added.unwrap();
    }

    /// Removes and returns the requester that waits for a lookup; None if there is none.
    pub(crate) fn take(&mut self, ticket: Ticket) -> Option<Requester>
        ensures takes { TakesOff ticket self.old.waiting self.new.waiting result }
        ensures ends { self.new.ends ≡ self.old.ends }
    {
        let place = place_of(&self.waiting, ticket.number())?;
        let owner = self.waiting.remove(place)?;
        Some(owner.requester)
    }

    /// The ticket of the requester that was added last; None if none waits.
    pub(crate) fn newest(&self) -> Option<u64>
        ensures { (d : Desk) (t : ℕ) (who : ARequester) → self.now ≡ with_requester d t who → result ≡ Some t }
    {
        let owner = self.waiting.back()?;
        Some(owner.ticket)
    }

    /// The ticket of the lookup of an ITR that asked for this identifier and waits; None if there is none.
    pub(crate) fn ticket_for(&self, x: Xeid) -> Option<u64>
        ensures asked { IfSome result (λ t. IsAskedBy self.now.waiting t x) }
        ensures none { IfNone result ((t : ℕ) → IsAskedBy self.now.waiting t x → ⊥) }
    {
        ticket_of(&self.waiting, x)
    }

    /// Sends an ITR the negative Map-Reply for an outcome, if the outcome has one. It allocates nothing.
    pub(crate) fn reply_to_itr<W: Wires>(
        &mut self,
        wires: &mut W,
        me: Locator,
        outcome: &Outcome,
        request: &ItrRequest,
    )
        ensures told { (calls : List ACall) × RecordsCalls (W.calls wires.old) calls (W.calls wires.new)
            × IsToldItr me outcome.now request.now calls }
        ensures same { self.new ≡ self.old }
    {
        if !Front::put_itr_reply(&mut self.reply, outcome, request) {
            return;
        }
        // A reply that can't be sent is lost.
        let _sent = wires.send(me, request.to, request.port, self.reply.as_slice());
    }

    /// Sets the end of the lookup of the identifier at an index.
    pub(crate) fn end(&mut self, place: usize, end: LoopEnd)
        ensures { self.new ≡ with_end self.old place end }
    {
        if place < self.ends.len() {
            self.ends[place] = end;
        }
    }

    /// Whether the lookup of some identifier hasn't ended.
    pub(crate) fn have_unresolved(&self) -> bool
        ensures { result ≡ has_unresolved self.now.ends }
    {
        self.ends.as_slice().iter().any(|end| is_open(*end))
    }

    /// Returns the ends, in the order of the identifiers.
    pub(crate) fn into_ends(self) -> Vec<LoopEnd>
        ensures { result.items ≡ self.ends }
    {
        let Requesters {
            alloc: _alloc,
            waiting: _owners,
            ends,
            reply: _reply,
        } = self;
        ends
    }
}

/// The index of the first requester that waits for the lookup of a ticket.
fn place_of(waiting: &VecDeque<WaitingRequester>, ticket: u64) -> Option<usize>
    ensures { result ≡ position (λ o. o.ticket == ticket) waiting.now.items }
{
    waiting.iter().position(|o| o.ticket == ticket)
}

/// The ticket of the first waiting ITR that asked for this identifier.
fn ticket_of(waiting: &VecDeque<WaitingRequester>, x: Xeid) -> Option<u64>
    ensures asked { IfSome result (λ t. IsAskedBy waiting.now.items t x) }
    ensures none { IfNone result ((t : ℕ) → IsAskedBy waiting.now.items t x → ⊥) }
{
    for place in 0..waiting.len() {
        let owner = &waiting[place];
        if asks_for(&owner.requester, x) {
            return Some(owner.ticket);
        }
    }
    None
}

/// Whether a requester is an ITR that asked for this identifier.
fn asks_for(requester: &Requester, x: Xeid) -> bool
    ensures yes { result ≡ true → (q : ARequest) × (requester.now ≡ Itr q) × (q.xeid ≡ x) }
    ensures no { result ≡ false → (q : ARequest) → requester.now ≡ Itr q → q.xeid ≢ x }
{
    match requester {
        Requester::Itr(request) => request.xeid == x,
        Requester::Identifier(_place) => false,
    }
}
