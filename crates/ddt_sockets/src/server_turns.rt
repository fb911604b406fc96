//! The turns of a server: each polls its socket once, and sends the server's reply and the request for an ETR.

ghost use Rattle.std.specs.Prelude.{◌≡◌, length, List, [], ◌∷◌, None, Some, Ok};
ghost use Rattle.std.specs.Int.{from_bool};
ghost use Rattle.ddt_sockets.specs.declared.wire_calls.Call.{Call as ACall};
ghost use Rattle.ddt_sockets.specs.declared.wire_calls.Call.TheVariants.{Received};
ghost use Rattle.ddt_sockets.specs.Calls.{RecordsCalls};
ghost use Rattle.ddt_sockets.specs.Turns.{ServesTurns, IsServerTurn, AreTried, reply_to, on_to_etr, sends_for};
ghost use Rattle.ddt_node.specs.Server.{in_buffer};
ghost use Rattle.ddt_sockets.specs.Turns.{most_bytes, is_received, is_replied, first_went_out};

use crate::wire_calls::Packet;
use crate::wires::Wires;
use ddt_ecm::CONTROL_PORT;
use ddt_node::{BufferedReply, Server};
use ddt_path::Locator;
use ddt_trie::PrefixMap;
use std::alloc::Global;

/// The most bytes of a UDP datagram.
pub const MOST_BYTES: usize = 65_535;

/// The numbers of packets that a server received and replied to.
#[derive(Clone, Copy, Debug, Default, PartialEq, Eq)]
pub struct Served {
    /// The number of packets received.
    pub received: u32,
    /// The number of replies sent without a fault.
    pub replied: u32,
}

/// Memory for what a server sends: one buffer for all replies, and an allocator for the requests to ETRs.
#[derive(Drop)]
pub struct Outbox {
    alloc: Global,
    reply: Vec<u8>,
}

impl Outbox {
    /// Creates an outbox with an empty buffer. It allocates nothing.
    pub fn new(alloc: Global) -> Outbox
        ensures { result.reply.items ≡ [] }
    {
        Outbox {
            alloc,
            reply: Vec::new(alloc),
        }
    }
}

/// Serves `turns` turns. Each turn calls `receive` once at the server's socket. For a packet it sends the reply, a
/// Map-Referral, to the packet's source address and port. If the site is acknowledged, it then sends the request to the
/// ETR at UDP port 4342. Each is tried once (RFC 8111, sections 7.1 and 7.2).
///
/// A request for which memory is short is lost, as is a datagram whose `receive` or `send` fails; the next turn goes
/// on. It allocates one buffer for all replies, and each request to an ETR.
pub fn serve_turns<W: Wires, M: PrefixMap<u32>>(
    alloc: Global,
    wires: &mut W,
    server: &Server<M>,
    at: Locator,
    turns: u32,
) -> Served
    // Some calls are those of `turns` turns, with these counts; wires that record their calls have recorded just these.
    ensures { (calls : List ACall) × RecordsCalls (W.calls wires.old) calls (W.calls wires.new)
        × ServesTurns server.now at turns calls result }
{
    let mut buffer = [0; MOST_BYTES];
    let mut outbox = Outbox::new(alloc);
    let mut received = 0;
    let mut replied = 0;
    for _turn in 0..turns {
        let turn = serve_turn(wires, server, at, &mut buffer, &mut outbox);
        received += turn.received;
        replied += turn.replied;
    }
    Served { received, replied }
}

/// Serves one turn, as `serve_turns` does, with a buffer of 65,535 bytes. Each of its counts is 0 or 1.
pub fn serve_turn<W: Wires, M: PrefixMap<u32>>(
    wires: &mut W,
    server: &Server<M>,
    at: Locator,
    buffer: &mut [u8],
    outbox: &mut Outbox,
) -> Served
    requires { length buffer.old ≡ most_bytes }
    ensures { (turn : List ACall) × RecordsCalls (W.calls wires.old) turn (W.calls wires.new)
        × IsServerTurn server.now at turn
        × (result.received ≡ from_bool (is_received turn)) × (result.replied ≡ from_bool (is_replied turn)) }
{
    match wires.receive(at, buffer) {
        Ok(Some(packet)) => {
            let replied = serve_packet(wires, server, at, packet, &buffer[..packet.len], outbox);
            Served {
                received: 1,
                replied: u32::from(replied),
            }
        }
        Ok(None) => Served::default(),
        // One datagram is lost, and the next turn goes on.
        Err(_fault) => Served::default(),
    }
}

/// Sends the reply and the request for a packet of these bytes, or nothing if out of memory. Returns whether the reply
/// was sent.
fn serve_packet<W: Wires, M: PrefixMap<u32>>(
    wires: &mut W,
    server: &Server<M>,
    at: Locator,
    packet: Packet,
    bytes: &[u8],
    outbox: &mut Outbox,
) -> bool
    ensures { (tries : List ACall) × RecordsCalls (W.calls wires.old) tries (W.calls wires.new)
        × IsServerTurn server.now at (Received at most_bytes (Ok (Some packet)) bytes.now ∷ tries)
        × (result ≡ first_went_out tries) }
{
    match server.handle_into(outbox.alloc, bytes, &mut outbox.reply) {
        Ok(sending) => send_all(wires, at, packet, &outbox.reply, &sending),
        Err(_refused) => false,
    }
}

/// Sends the reply and then the request for a packet. Returns whether the reply was sent.
fn send_all<W: Wires>(
    wires: &mut W,
    at: Locator,
    packet: Packet,
    reply: &[u8],
    sending: &BufferedReply,
) -> bool
    requires { (in_buffer reply.now sending.now).reply ≡ None → sending.now.forward ≡ None }
    ensures { (tries : List ACall) × RecordsCalls (W.calls wires.old) tries (W.calls wires.new)
        × AreTried at (sends_for packet (in_buffer reply.now sending.now)) tries × (result ≡ first_went_out tries) }
{
    let replied = send_reply(wires, at, packet, reply, sending);
    send_on(wires, at, sending);
    replied
}

/// Sends the reply, if there is one, to the packet's source. Returns whether it was sent.
fn send_reply<W: Wires>(
    wires: &mut W,
    at: Locator,
    packet: Packet,
    reply: &[u8],
    sending: &BufferedReply,
) -> bool
    ensures { (tries : List ACall) × RecordsCalls (W.calls wires.old) tries (W.calls wires.new)
        × AreTried at (reply_to packet (in_buffer reply.now sending.now).reply) tries
        × (result ≡ first_went_out tries) }
{
    if !sending.has_reply {
        return false;
    }
    let sent = wires.send(at, packet.from, packet.port, reply);
    sent.is_ok()
}

/// Sends the request to the ETR, if there is one.
fn send_on<W: Wires>(wires: &mut W, at: Locator, sending: &BufferedReply)
    ensures { (tries : List ACall) × RecordsCalls (W.calls wires.old) tries (W.calls wires.new)
        × AreTried at (on_to_etr sending.now.forward) tries }
{
    if let Some(forward) = &sending.forward {
        // A request that can't be sent is lost.
        let _sent = wires.send(at, forward.to, CONTROL_PORT, forward.bytes.as_slice());
    }
}
