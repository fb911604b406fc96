//! Whether a packet is the reply to a question.

ghost use Rattle.std.specs.Prelude.{◌≡◌, ◌≤◌, length, take, IfOk, IfSome};
ghost use Rattle.std.specs.Option.{option_map};
ghost use Rattle.ddt_foreign.specs.Request.{request_in};
ghost use Rattle.ddt_sockets.specs.Calls.{packet_bytes};
ghost use Rattle.ddt_asking.specs.Replies.{begins_as as begins_as_of, is_of_server, is_reply as is_reply_of, is_forwarded as is_forwarded_of, is_own_request, reply_in};

use crate::probe_options::Client;
use byteorder::{BigEndian, ByteOrder};
use ddt_ecm::CONTROL_PORT;
use ddt_foreign::{ForeignRequest, read_foreign_request};
use ddt_path::{Locator, Xeid};
use ddt_sockets::{NetFault, Packet};
use ddt_wire::{MAP_REFERRAL, MAP_REPLY, TYPE_SHIFT};

/// The offset of the end of the nonce in a Map-Referral or Map-Reply, in bytes.
const NONCE_END: usize = 12;

/// The reply that a question waits for.
#[derive(Clone, Copy, PartialEq, Eq)]
pub(crate) struct AwaitedReply {
    /// The client that asks.
    pub(crate) client: Client,
    /// The server that was asked.
    pub(crate) from: Locator,
    /// The nonce of the question.
    pub(crate) nonce: u64,
    /// The identifier that is asked for.
    pub(crate) xeid: Xeid,
}

/// Returns the length of the awaited reply, which is at the front of the buffer; None if `receive` returned another
/// packet or none, or if no reply is awaited.
pub(crate) fn reply_len(
    answer: Result<Option<Packet>, NetFault>,
    buffer: &[u8],
    awaited: Option<AwaitedReply>,
) -> Option<usize>
    requires { IfOk answer (λ given. IfSome given (λ packet. packet.len ≤ length buffer.now)) }
    ensures reply { option_map (λ len. take len buffer.now) result
        ≡ reply_in awaited answer (packet_bytes answer buffer.now) }
    ensures within { IfSome result (λ len. len ≤ length buffer.now) }
{
    let Ok(Some(packet)) = answer else {
        return None;
    };
    let awaited = awaited?;
    if is_reply(awaited, packet, &buffer[..packet.len]) {
        Some(packet.len)
    } else {
        None
    }
}

/// Returns whether a packet of these bytes is the awaited reply. A server's reply is a Map-Referral with the nonce,
/// from its UDP port 4342. A reply to an ITR is a Map-Reply with the nonce, or the ITR's own request, which a
/// Map-Server forwards to an ETR; both may come from anywhere.
fn is_reply(awaited: AwaitedReply, packet: Packet, bytes: &[u8]) -> bool
    ensures { result ≡ is_reply_of awaited packet bytes.now }
{
    match awaited.client {
        Client::Ddt => is_from_server(awaited, packet, bytes),
        Client::Itr => {
            begins_as(MAP_REPLY, awaited.nonce, bytes)
                || is_forwarded(awaited.nonce, awaited.xeid, bytes)
        }
    }
}

fn is_from_server(awaited: AwaitedReply, packet: Packet, bytes: &[u8]) -> bool
    ensures { result ≡ is_of_server awaited packet bytes.now }
{
    packet.from == awaited.from
        && packet.port == CONTROL_PORT
        && begins_as(MAP_REFERRAL, awaited.nonce, bytes)
}

/// Returns whether the bytes begin as a message of this type with this nonce, whatever follows.
fn begins_as(kind: u8, nonce: u64, bytes: &[u8]) -> bool
    ensures { result ≡ begins_as_of kind nonce bytes.now }
{
    bytes.len() >= NONCE_END
        && bytes[0] >> TYPE_SHIFT == kind
        && BigEndian::read_u64(&bytes[4..]) == nonce
}

/// Returns whether the bytes are an Encapsulated Map-Request for this identifier with this nonce, as any implementation
/// writes it.
pub(crate) fn is_forwarded(nonce: u64, xeid: Xeid, bytes: &[u8]) -> bool
    ensures { result ≡ is_forwarded_of nonce xeid bytes.now }
{
    match read_foreign_request(bytes) {
        Ok(request) => is_own(nonce, xeid, &request),
        Err(_fault) => false,
    }
}

fn is_own(nonce: u64, xeid: Xeid, request: &ForeignRequest<'_>) -> bool
    ensures { result ≡ is_own_request nonce xeid request.now }
{
    let asked = request.xeid();
    request.nonce() == nonce && asked.iid == xeid.iid && asked.address == xeid.address
}
