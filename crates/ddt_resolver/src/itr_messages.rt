//! A Map-Resolver's messages with ITRs: the Map-Request of an ITR, and the negative Map-Reply to it (RFC 8111, section
//! 7.3; RFC 9301, sections 5.4 and 5.8).

ghost use Rattle.std.specs.Prelude.{◌≡◌, ◌≤◌, false, Some, None, Ok, IfOk, IfSome, IsSome, vec_capacity};
ghost use Rattle.ddt_ecm.specs.Request.{Message, Spells};
ghost use Rattle.ddt_resolver.specs.declared.itr_messages.ItrRequest.{ItrRequest as AnItrRequest};
ghost use Rattle.ddt_resolver.specs.Front.{IsItrRequest, asked_by, block_for as block_for_of, negative_for as negative_for_of, reply_to_itr, in_buffer};

use crate::results::Outgoing;
use ddt_ecm::{Request, read_request};
use ddt_path::{HOLE_TTL, Listed, Locator, NOT_REGISTERED_TTL, Outcome, Prefix, Xeid};
use ddt_wire::{put_negative_reply, write_negative_reply};
use std::alloc::{AllocError, Global};

/// The number of digits of an XEID before its address: 32 of the instance ID, and one of the address family.
const BEFORE_ADDRESS: u8 = 33;
/// The most bytes of a negative Map-Reply.
pub const MOST_REPLY_BYTES: usize = 52;

/// The Map-Request of an ITR: what it asks for, and where the answer goes.
#[derive(Clone, Copy, Debug, PartialEq, Eq)]
pub struct ItrRequest {
    /// The identifier that it asks for.
    pub xeid: Xeid,
    /// The nonce, which the answer repeats.
    pub nonce: u64,
    /// The first ITR-RLOC: the answer goes there.
    pub to: Locator,
    /// The inner UDP source port: the answer goes to this port.
    pub port: u16,
}

/// The prefix of a negative Map-Reply for the identifier: `prefix`, or all addresses of the identifier's instance and
/// family if `prefix` is a range of instances.
fn block_for(x: Xeid, prefix: Prefix) -> Prefix
    ensures { result ≡ block_for_of x prefix }
{
    if prefix.len() < BEFORE_ADDRESS {
        Prefix::cut(x, BEFORE_ADDRESS)
    } else {
        prefix
    }
}

/// The TTL in minutes and the prefix of the negative answer for an identifier; None if it is registered.
fn negative_for(x: Xeid, outcome: &Outcome) -> Option<(u32, Prefix)>
    ensures { result ≡ negative_for_of x outcome.now }
{
    match outcome {
        Outcome::Registered { .. } => None,
        Outcome::NotRegistered { prefix, .. } => Some((NOT_REGISTERED_TTL, block_for(x, *prefix))),
        Outcome::Hole { prefix } => Some((HOLE_TTL, block_for(x, *prefix))),
    }
}

/// The side of a Map-Resolver that faces ITRs. It has no state: an ITR's request says where its answer goes.
#[derive(Clone, Copy, Debug)]
pub struct Front;

impl Front {
    /// The ITR's request in a Map-Request that was read; None if the bit D is set, as a resolver sets it.
    pub fn asked(request: &Request<'_>) -> Option<ItrRequest>
        ensures { result ≡ asked_by request.now }
    {
        if request.ddt() {
            return None;
        }
        let to = request.itr_rlocs().next()?;
        Some(ItrRequest {
            xeid: request.xeid(),
            nonce: request.nonce(),
            to,
            port: request.port(),
        })
    }

    /// Reads the request of an ITR: an Encapsulated Map-Request whose bit D is clear. None for anything else.
    pub fn itr_request(bytes: &[u8]) -> Option<ItrRequest>
        // The bytes spell what is read.
        ensures found { IfSome result (λ q. IsItrRequest bytes.now q) }
        // What they spell is read.
        ensures only { (q : AnItrRequest) → IsItrRequest bytes.now q → result ≡ Some q }
        // Each request whose bit D is clear is one.
        ensures there { (m : Message) → Spells bytes.now m → m.ddt ≡ false → IsSome result }
    {
        match read_request(bytes) {
            Ok(request) => Front::asked(&request),
            Err(_fault) => None,
        }
    }

    /// The datagram to an ITR for the outcome of its request: a negative Map-Reply with the ITR's nonce, to its first
    /// ITR-RLOC at its inner source port. The TTL is 15 minutes for a delegation hole, and 1 minute for a site without
    /// a registration. None if a site is registered: the resolver sends the ITR nothing. Fails only if out of memory.
    pub fn itr_reply(
        alloc: Global,
        outcome: &Outcome,
        request: &ItrRequest,
    ) -> Result<Option<Outgoing>, AllocError>
        ensures answered { IfOk result (λ r. r ≡ reply_to_itr outcome.now request.now) }
        ensures unanswered { negative_for_of request.now.xeid outcome.now ≡ None → result ≡ Ok None }
    {
        let Some((ttl, prefix)) = negative_for(request.xeid, outcome) else {
            return Ok(None);
        };
        let bytes = write_negative_reply(alloc, request.nonce, ttl, prefix)?;
        Ok(Some(Outgoing {
            to: request.to,
            port: request.port,
            bytes: Listed::of(bytes),
        }))
    }

    /// Replaces a buffer's bytes with the reply of `itr_reply`, and returns whether there is one. It goes to the
    /// request's first ITR-RLOC at its inner source port. The buffer has room for the 52 bytes of the longest reply, so
    /// the call allocates nothing and never fails.
    pub fn put_itr_reply(buffer: &mut Vec<u8>, outcome: &Outcome, request: &ItrRequest) -> bool
        requires { 52 ≤ vec_capacity buffer.old }
        ensures answered { in_buffer request.now buffer.new.items result ≡ reply_to_itr outcome.now request.now }
        ensures room { 52 ≤ vec_capacity buffer.new }
    {
        let Some((ttl, prefix)) = negative_for(request.xeid, outcome) else {
            return false;
        };
        let put: Result<_, _> = put_negative_reply(buffer, request.nonce, ttl, prefix);
        put.unwrap();
        true
    }
}
