//! A poll of one socket: a packet at the resolver's socket is handled by the resolver, and one at a server's socket is
//! answered (RFC 8111, sections 7.1 to 7.3).

ghost use Rattle.std.specs.Prelude.{◌≡◌, ◌+◌, ◌%◌, ◌≤◌, ◌∷◌, [], List, length, take as front_of, Ok, Some, IfSome, IfNone};
ghost use Rattle.ddt_sockets.specs.declared.wire_calls.Call.{Call as ACall};
ghost use Rattle.ddt_sockets.specs.Calls.{RecordsCalls};
ghost use Rattle.ddt_sockets.specs.Turns.{most_bytes};
ghost use Rattle.ddt_loop.specs.Requesters.{AreWaiting};
ghost use Rattle.ddt_loop.specs.Acts.{running};
ghost use Rattle.ddt_loop.specs.Polls.{IsNoPacket, Polls, PollsMe, PollsServer, polled};

use crate::requesters::Requesters;
use crate::resolver_steps::{Here, take};
use ddt_cache::{Entry, Moment};
use ddt_path::Locator;
use ddt_resolver::Resolver;
use ddt_sim::Compiled;
use ddt_sockets::{Packet, Wires};
use ddt_trie::PrefixMap;
use std::alloc::Global;

/// The locators of the polled sockets, and the servers that answer there.
#[derive(Drop)]
pub struct SocketMap<'a, N: PrefixMap<u32>> {
    /// The locator of the resolver's own socket.
    pub me: Locator,
    /// The locators of the servers' sockets.
    pub sockets: &'a [Locator],
    /// The servers of the register.
    pub servers: &'a Compiled<N>,
}

/// The number of a turn, from 0, and its moment.
#[derive(Clone, Copy, Debug)]
pub(crate) struct PollTurn {
    pub(crate) number: u32,
    pub(crate) moment: Moment,
}

/// Polls the socket of a turn: the resolver's first, then the servers' in order.
pub(crate) fn poll_in_turn<W: Wires, N: PrefixMap<u32>, M: PrefixMap<Entry>>(
    wires: &mut W,
    tree: &SocketMap<'_, N>,
    resolver: &mut Resolver<M>,
    requesters: &mut Requesters,
    turn: &PollTurn,
    buffer: &mut [u8],
)
    requires buffer { length buffer.old ≡ most_bytes }
    requires waiting { AreWaiting resolver.old requesters.old.waiting }
    ensures polls { (calls : List ACall) × RecordsCalls (W.calls wires.old) calls (W.calls wires.new)
        × Polls tree.now.servers.now tree.now.me tree.now.sockets.now turn.now.moment
        (turn.now.number % (length tree.now.sockets.now + 1)) (running resolver.old requesters.old) calls
        (running resolver.new requesters.new) }
    ensures waiting { AreWaiting resolver.new requesters.new.waiting }
{
    let place = turn.number as usize % (tree.sockets.len() + 1);
    if place == 0 {
        let here = Here {
            me: tree.me,
            moment: turn.moment,
        };
        poll_me(wires, resolver, &here, requesters, buffer);
    } else {
        let at = tree.sockets[place - 1];
        poll_server(requesters.alloc(), wires, tree.servers, at, buffer);
    }
}

/// Polls a socket. The bytes of a received packet are at the front of the buffer. If `receive` fails, one datagram is
/// lost, and None is returned.
fn poll<W: Wires>(wires: &mut W, at: Locator, buffer: &mut [u8]) -> Option<Packet>
    requires { length buffer.old ≡ most_bytes }
    ensures came { IfSome result (λ packet. RecordsCalls (W.calls wires.old)
        (polled at (Ok (Some packet)) (front_of packet.len buffer.new) ∷ []) (W.calls wires.new)) }
    ensures fits { IfSome result (λ packet. packet.len ≤ length buffer.new) }
    ensures none { IfNone result ((call : ACall) × IsNoPacket at call
        × RecordsCalls (W.calls wires.old) (call ∷ []) (W.calls wires.new)) }
{
    match wires.receive(at, buffer) {
        Ok(answer) => answer,
        Err(_fault) => None,
    }
}

/// Polls the resolver's socket, and handles the packet.
fn poll_me<W: Wires, M: PrefixMap<Entry>>(
    wires: &mut W,
    resolver: &mut Resolver<M>,
    here: &Here,
    requesters: &mut Requesters,
    buffer: &mut [u8],
)
    requires buffer { length buffer.old ≡ most_bytes }
    requires waiting { AreWaiting resolver.old requesters.old.waiting }
    ensures polls { (calls : List ACall) × RecordsCalls (W.calls wires.old) calls (W.calls wires.new)
        × PollsMe here.now.me here.now.moment (running resolver.old requesters.old) calls
        (running resolver.new requesters.new) }
    ensures waiting { AreWaiting resolver.new requesters.new.waiting }
{
    match poll(wires, here.me, buffer) {
        Some(packet) => {
            let bytes = &buffer[..packet.len];
            let _came = take(wires, resolver, here, requesters, packet, bytes);
        }
        None => {}
    }
}

/// Polls a server's socket, and answers the packet.
fn poll_server<W: Wires, N: PrefixMap<u32>>(
    alloc: Global,
    wires: &mut W,
    servers: &Compiled<N>,
    at: Locator,
    buffer: &mut [u8],
)
    requires { length buffer.old ≡ most_bytes }
    ensures { (calls : List ACall) × RecordsCalls (W.calls wires.old) calls (W.calls wires.new)
        × PollsServer servers.now at calls }
{
    match poll(wires, at, buffer) {
        Some(packet) => {
            let bytes = &buffer[..packet.len];
            serve(alloc, wires, servers, at, packet, bytes);
        }
        None => {}
    }
}

/// Sends the reply to a packet of these bytes to its source. Nothing is sent if there is no reply, or if out of memory,
/// and no request is sent on to an ETR.
fn serve<W: Wires, N: PrefixMap<u32>>(
    alloc: Global,
    wires: &mut W,
    servers: &Compiled<N>,
    at: Locator,
    packet: Packet,
    bytes: &[u8],
)
    ensures { (tries : List ACall) × RecordsCalls (W.calls wires.old) tries (W.calls wires.new)
        × PollsServer servers.now at (polled at (Ok (Some packet)) bytes.now ∷ tries) }
{
    match servers.reply(alloc, at, bytes) {
        Ok(Some(reply)) => {
            // A reply that can't be sent is lost.
            let _sent = wires.send(at, packet.from, packet.port, reply.as_slice());
        }
        Ok(None) => {}
        Err(_refused) => {}
    }
}
