//! The round of a server at one of its sockets.

ghost use Rattle.std.specs.Prelude.{◌≡◌, ◌⊎◌, ◌+◌, ◌≤◌, ◌∷◌, ℕ, List, length, Some, Ok, true, false};
ghost use Rattle.ddt_sockets.specs.declared.wire_calls.Call.{Call as ACall};
ghost use Rattle.ddt_sockets.specs.declared.wire_calls.Call.TheVariants.{Received};
ghost use Rattle.ddt_sockets.specs.Calls.{RecordsCalls};
ghost use Rattle.ddt_sockets.specs.Turns.{most_bytes, is_received};
ghost use Rattle.ddt_foreign.specs.Request.{request_in};
ghost use Rattle.ddt_daemon.specs.ServerTurns.{IsTurn, AreTurns};

use crate::sending::{send_all, to_client, to_itr};
use crate::server_record::ServerRecord;
use crate::service::{Service, ServiceResult, service_for};
use ddt_config::settings::ServerSettings;
use ddt_foreign::{ForeignRequest, ForeignRequestFault, read_foreign_request};
use ddt_node::Server;
use ddt_path::Locator;
use ddt_sockets::{Packet, Wires};
use ddt_trie::PrefixMap;
use std::alloc::Global;

/// A socket of a server, with the settings that say which ITRs it answers.
#[derive(Clone, Copy, Debug)]
pub struct ServerSocket<'a> {
    pub alloc: Global,
    /// The socket's address.
    pub at: Locator,
    pub settings: &'a ServerSettings,
}

/// Serves at most `most` turns at a socket, and none after a turn without a packet. Returns the number of packets
/// received. Each turn calls `receive` once.
///
/// A DDT client's request is answered by a Map-Referral to its source. For a registered site, it is also forwarded to
/// the first ETR, with the bit D clear (RFC 8111, sections 7.1 and 7.2). An ITR's request has that bit clear. A
/// Map-Server that allows its source forwards it unchanged, but never to a locator of the own group. For a hole or a
/// site that isn't registered, it sends the negative Map-Reply (RFC 9301, section 8.3). Requests are read as
/// `ddt_foreign` reads them. Probes and unreadable datagrams are dropped.
pub fn serve_ready<W: Wires, M: PrefixMap<u32>>(
    wires: &mut W,
    server: &Server<M>,
    door: &ServerSocket<'_>,
    most: u32,
    buffer: &mut [u8],
    done: &mut ServerRecord,
) -> u32
    requires { length buffer.old ≡ most_bytes }
    ensures serves { (turns : ℕ)
        × (((turns ≡ most) × (result ≡ turns)) ⊎ ((turns ≤ most) × (turns ≡ result + 1)))
        × (calls : List ACall)
        × RecordsCalls (W.calls wires.old) calls (W.calls wires.new)
        × AreTurns server.now door.now.settings.now door.now.at turns calls }
    ensures room { length buffer.new ≡ most_bytes }
{
    let mut received = 0;
    for _turn in 0..most {
        if !serve_turn(wires, server, door, buffer, done) {
            return received;
        }
        received += 1;
    }
    received
}

/// Serves one turn. Returns whether it received a packet.
fn serve_turn<W: Wires, M: PrefixMap<u32>>(
    wires: &mut W,
    server: &Server<M>,
    door: &ServerSocket<'_>,
    buffer: &mut [u8],
    done: &mut ServerRecord,
) -> bool
    requires { length buffer.old ≡ most_bytes }
    ensures turn { (turn : List ACall) × RecordsCalls (W.calls wires.old) turn (W.calls wires.new)
        × IsTurn server.now door.now.settings.now door.now.at turn × (result ≡ is_received turn) }
    ensures room { length buffer.new ≡ most_bytes }
{
    match wires.receive(door.at, buffer) {
        Ok(Some(packet)) => {
            let now = serve_packet(wires, server, door, packet, &buffer[..packet.len]);
            done.serve_one(packet.from, now);
            true
        }
        Ok(None) => false,
        // One datagram is lost; the next round continues.
        Err(_fault) => false,
    }
}

/// Handles a packet with these bytes that came to the socket, and tries to send the answers; nothing if out of memory.
/// Returns what was done with it.
pub fn serve_packet<W: Wires, M: PrefixMap<u32>>(
    wires: &mut W,
    server: &Server<M>,
    door: &ServerSocket<'_>,
    packet: Packet,
    bytes: &[u8],
) -> ServiceResult
    ensures { (tries : List ACall) × RecordsCalls (W.calls wires.old) tries (W.calls wires.new)
        × IsTurn server.now door.now.settings.now door.now.at
        (Received door.now.at most_bytes (Ok (Some packet)) bytes.now ∷ tries) }
{
    match read_foreign_request(bytes) {
        Ok(request) => serve_request(wires, server, door, packet, &request, bytes),
        Err(ForeignRequestFault::UnrecognizedAfi) => ServiceResult::dropped(
            Service::UnrecognizedAfi,
        ),
        Err(_fault) => ServiceResult::dropped(Service::NoRequest),
    }
}

/// Tries to send the answers to a request in a packet with these bytes; nothing if out of memory.
fn serve_request<W: Wires, M: PrefixMap<u32>>(
    wires: &mut W,
    server: &Server<M>,
    door: &ServerSocket<'_>,
    packet: Packet,
    request: &ForeignRequest<'_>,
    bytes: &[u8],
) -> ServiceResult
    requires { request_in bytes.now ≡ Ok request.now }
    ensures { (tries : List ACall) × RecordsCalls (W.calls wires.old) tries (W.calls wires.new)
        × IsTurn server.now door.now.settings.now door.now.at
        (Received door.now.at most_bytes (Ok (Some packet)) bytes.now ∷ tries) }
{
    let service = service_for(server.role(), door.settings, packet.from, request);
    match service {
        Service::Client => match to_client(door.alloc, server, packet, request, bytes) {
            Ok(sending) => ServiceResult {
                service,
                replied: send_all(wires, door.at, &sending),
            },
            // A request is lost.
            Err(_refused) => ServiceResult::dropped(service),
        },
        Service::Itr => match to_itr(door.alloc, server, packet, request, bytes) {
            Ok(sending) => ServiceResult {
                service,
                replied: send_all(wires, door.at, &sending),
            },
            Err(_refused) => ServiceResult::dropped(service),
        },
        _ => ServiceResult::dropped(service),
    }
}
