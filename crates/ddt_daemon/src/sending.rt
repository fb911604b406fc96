//! The datagrams that a server sends for a request: a Map-Referral to a DDT client, a negative Map-Reply to an ITR, and
//! the request itself to an ETR (RFC 8111, sections 7.1 and 7.2; RFC 9301, section 8.3).

ghost use Rattle.std.specs.Prelude.{◌≡◌, ◌≢◌, ◌++◌, [], List, IfOk, OnErr};
ghost use Rattle.ddt_node.specs.Server.{without_d as without_d_of};
ghost use Rattle.ddt_sockets.specs.declared.wire_calls.Call.{Call as ACall};
ghost use Rattle.ddt_sockets.specs.Calls.{RecordsCalls};
ghost use Rattle.ddt_sockets.specs.Turns.{AreTried, first_went_out};
ghost use Rattle.ddt_resolver.specs.Records.{negative_answer};
ghost use Rattle.ddt_loop.specs.Acts.{sent_if};
ghost use Rattle.ddt_daemon.specs.declared.service.Service.TheVariants.{Client, Itr};
ghost use Rattle.ddt_daemon.specs.ServerTurns.{reply_for, onward_for, negative_to, on_as_it_came, on_without_d};

use crate::admission::is_one;
use ddt_ecm::CONTROL_PORT;
use ddt_foreign::ForeignRequest;
use ddt_node::Server;
use ddt_path::{Action, Listed, Locator, Outcome, ReferralRecord};
use ddt_resolver::{Front, ItrRequest, Outgoing};
use ddt_sockets::{Packet, Wires};
use ddt_trie::PrefixMap;
use ddt_wire::write_referral;
use std::alloc::{AllocError, Global};

/// The weights of bit S and bit D in the first byte of an Encapsulated Control Message. The bits after D count up to 3.
const S_PLACE: u8 = 8;

const D_PLACE: u8 = 4;

/// The datagrams that a server sends for a request.
#[derive(Debug, Drop)]
pub(crate) struct Sending {
    pub(crate) reply: Option<Outgoing>,
    /// The request, forwarded to an ETR.
    pub(crate) onward: Option<Outgoing>,
}

/// The Map-Referral to a DDT client, and its request for an ETR if the site is registered.
pub(crate) fn to_client<M: PrefixMap<u32>>(
    alloc: Global,
    server: &Server<M>,
    packet: Packet,
    request: &ForeignRequest<'_>,
    bytes: &[u8],
) -> Result<Sending, AllocError>
    ensures reply { IfOk result (λ s. sent_if s.reply ≡ reply_for server.now packet request.now Client) }
    ensures onward { IfOk result (λ s. sent_if s.onward ≡ onward_for server.now bytes.now request.now Client) }
{
    let x = request.xeid();
    let reply = write_referral(alloc, request.nonce(), &server.answer(x))?;
    Ok(Sending {
        reply: Some(Outgoing {
            to: packet.from,
            port: packet.port,
            bytes: Listed::of(reply),
        }),
        onward: without_d_to(alloc, server.etr(x), bytes)?,
    })
}

/// The negative Map-Reply to an ITR, or its request for an ETR. Fails only if out of memory for one of them.
pub(crate) fn to_itr<M: PrefixMap<u32>>(
    alloc: Global,
    server: &Server<M>,
    packet: Packet,
    request: &ForeignRequest<'_>,
    bytes: &[u8],
) -> Result<Sending, AllocError>
    ensures reply { IfOk result (λ s. sent_if s.reply ≡ reply_for server.now packet request.now Itr) }
    ensures onward { IfOk result (λ s. sent_if s.onward ≡ onward_for server.now bytes.now request.now Itr) }
    ensures wanted { OnErr result (reply_for server.now packet request.now Itr
        ++ onward_for server.now bytes.now request.now Itr ≢ []) }
{
    let x = request.xeid();
    let own = server.locators().as_slice();
    Ok(Sending {
        reply: negative_reply(alloc, request, &server.answer(x))?,
        onward: as_it_came_to(alloc, own, server.etr(x), bytes)?,
    })
}

/// The outcome of a negative record: a hole, or a site that isn't registered. None for other records.
fn negative_outcome(record: &ReferralRecord) -> Option<Outcome>
    ensures { result ≡ negative_answer «record».now.action «record».now.prefix «record».now.servers }
{
    let (prefix, servers) = (record.prefix, record.servers);
    match record.action {
        Action::MsNotRegistered => Some(Outcome::NotRegistered { prefix, servers }),
        Action::DelegationHole => Some(Outcome::Hole { prefix }),
        _ => None,
    }
}

/// The negative Map-Reply for a negative record, to an ITR that wants a reply.
fn negative_reply(
    alloc: Global,
    request: &ForeignRequest<'_>,
    record: &ReferralRecord,
) -> Result<Option<Outgoing>, AllocError>
    ensures reply { IfOk result (λ reply. sent_if reply ≡ negative_to request.now «record».now) }
    ensures wanted { OnErr result (negative_to request.now «record».now ≢ []) }
{
    if !request.wants_reply() {
        return Ok(None);
    }
    let Some(outcome) = negative_outcome(record) else {
        return Ok(None);
    };
    let asked = ItrRequest {
        xeid: request.xeid(),
        nonce: request.nonce(),
        to: request.first_rloc(),
        port: request.port(),
    };
    Front::itr_reply(alloc, &outcome, &asked)
}

/// An ITR's request to an ETR, unchanged, if there is an ETR that isn't one of the server's own locators.
fn as_it_came_to(
    alloc: Global,
    own: &[Locator],
    etr: Option<Locator>,
    bytes: &[u8],
) -> Result<Option<Outgoing>, AllocError>
    ensures onward { IfOk result (λ onward. sent_if onward ≡ on_as_it_came own.now bytes.now etr) }
    ensures wanted { OnErr result (on_as_it_came own.now bytes.now etr ≢ []) }
{
    match etr {
        Some(to) => {
            if is_one(to, own) {
                return Ok(None);
            }
            let bytes = Vec::from_slice(alloc, bytes)?;
            Ok(Some(Outgoing {
                to,
                port: CONTROL_PORT,
                bytes: Listed::of(bytes),
            }))
        }
        None => Ok(None),
    }
}

/// A DDT client's request to an ETR, with the bit D clear, if there is an ETR.
fn without_d_to(
    alloc: Global,
    etr: Option<Locator>,
    bytes: &[u8],
) -> Result<Option<Outgoing>, AllocError>
    ensures { IfOk result (λ onward. sent_if onward ≡ on_without_d bytes.now etr) }
{
    match etr {
        Some(to) => {
            let bytes = without_d(alloc, bytes)?;
            Ok(Some(Outgoing {
                to,
                port: CONTROL_PORT,
                bytes: Listed::of(bytes),
            }))
        }
        None => Ok(None),
    }
}

/// The datagram with the bit D of an Encapsulated Control Message clear.
fn without_d(alloc: Global, request: &[u8]) -> Result<Vec<u8>, AllocError>
    ensures { IfOk result (λ bytes. bytes.items ≡ without_d_of request.now) }
{
    let mut bytes = Vec::from_slice(alloc, request)?;
    if !bytes.is_empty() {
        let first = bytes[0];
        bytes[0] = first / S_PLACE * S_PLACE + first % D_PLACE;
    }
    Ok(bytes)
}

/// Tries to send all datagrams, the reply first. Returns whether a reply was sent without a fault.
pub(crate) fn send_all<W: Wires>(wires: &mut W, at: Locator, sending: &Sending) -> bool
    ensures { (tries : List ACall) × RecordsCalls (W.calls wires.old) tries (W.calls wires.new)
        × AreTried at (sent_if sending.now.reply ++ sent_if sending.now.onward) tries }
{
    let replied = send_one(wires, at, &sending.reply);
    send_one(wires, at, &sending.onward);
    replied
}

/// Tries to send a datagram, if there is one. Returns whether it was sent without a fault.
fn send_one<W: Wires>(wires: &mut W, at: Locator, datagram: &Option<Outgoing>) -> bool
    ensures { (tries : List ACall) × RecordsCalls (W.calls wires.old) tries (W.calls wires.new)
        × AreTried at (sent_if datagram.now) tries × (result ≡ first_went_out tries) }
{
    match datagram {
        Some(datagram) => {
            let sent = wires.send(at, datagram.to, datagram.port, datagram.bytes.as_slice());
            sent.is_ok()
        }
        None => false,
    }
}
