//! Registers the ETRs of a Map-Register that a Map-Server has received, and sends its Map-Notify.

ghost use Rattle.std.specs.Prelude.{◌≡◌, ◌≤◌, List, Ok, length};
ghost use Rattle.std.specs.Option.{option_map};
ghost use Rattle.ddt_config.specs.Table.{Outline};
ghost use Rattle.ddt_registrar.specs.Taking.{in_force};
ghost use Rattle.ddt_sockets.specs.declared.wire_calls.Call.{Call as ACall};
ghost use Rattle.ddt_sockets.specs.Calls.{RecordsCalls};
ghost use Rattle.ddt_sockets.specs.Turns.{AreTried, first_went_out};
ghost use Rattle.ddt_map_register.specs.MapRegister.{message_in};
ghost use Rattle.ddt_map_server.specs.Registering.{begins_map_register, most_bytes, notify_to_sender, Registers};

use crate::register_outcome::RegisterOutcome;
use ddt_ecm::CONTROL_PORT;
use ddt_map_register::{MapRegister, read_register};
use ddt_node::Server;
use ddt_path::Locator;
use ddt_registrar::{ReceivedRegister, Registrar};
use ddt_sockets::{Packet, Wires};
use ddt_trie::PrefixMap;
use std::alloc::Global;

/// The most bytes of a Map-Register.
const MOST_BYTES: usize = 1_500;
/// The type of a Map-Register, in the first four bits.
const MAP_REGISTER: u8 = 3;

/// A datagram that was received at a socket.
#[derive(Clone, Copy, Debug)]
pub struct ReceivedDatagram<'a> {
    pub alloc: Global,
    /// The address of the socket.
    pub at: Locator,
    pub packet: Packet,
    pub bytes: &'a [u8],
    /// The moment, in milliseconds.
    pub moment: u64,
}

/// Whether a datagram begins as a Map-Register does. Such a datagram is for `register`, any other for the server.
pub fn is_map_register(bytes: &[u8]) -> bool
    ensures { result ≡ begins_map_register bytes.now }
{
    !bytes.is_empty() && bytes[0] / 16 == MAP_REGISTER
}

/// Accepts a Map-Register, or drops it silently. An accepted one first changes the registrations and the ETRs of the
/// server. Then, if its bit M is set, the Map-Notify is sent to its source address at UDP port 4342. The datagram is
/// read and its sites and keys are found before an authentication code is computed.
pub fn register<W: Wires, M: PrefixMap<u32>>(
    wires: &mut W,
    server: &mut Server<M>,
    registrar: &mut Registrar<M>,
    datagram: &ReceivedDatagram<'_>,
) -> RegisterOutcome
    ensures registers { (tries : List ACall) × RecordsCalls (W.calls wires.old) tries (W.calls wires.new)
        × Registers datagram.now.moment datagram.now.at datagram.now.packet datagram.now.bytes.now
        registrar.old registrar.new tries result }
    ensures follows { (c : Outline) → server.old ≡ in_force registrar.old c → server.new ≡ in_force registrar.new c }
{
    if datagram.bytes.len() > MOST_BYTES {
        return RegisterOutcome::TooLong;
    }
    match read_register(datagram.bytes) {
        Ok(message) => take(wires, server, registrar, datagram, &message),
        Err(fault) => RegisterOutcome::Malformed(fault),
    }
}

/// `register` for a message that was read.
fn take<W: Wires, M: PrefixMap<u32>>(
    wires: &mut W,
    server: &mut Server<M>,
    registrar: &mut Registrar<M>,
    datagram: &ReceivedDatagram<'_>,
    message: &MapRegister<'_>,
) -> RegisterOutcome
    requires few { length datagram.now.bytes.now ≤ most_bytes }
    requires read { message_in datagram.now.bytes.now ≡ Ok message.now }
    ensures registers { (tries : List ACall) × RecordsCalls (W.calls wires.old) tries (W.calls wires.new)
        × Registers datagram.now.moment datagram.now.at datagram.now.packet datagram.now.bytes.now
        registrar.old registrar.new tries result }
    ensures follows { (c : Outline) → server.old ≡ in_force registrar.old c → server.new ≡ in_force registrar.new c }
{
    let arrival = ReceivedRegister {
        message,
        from: datagram.packet.from,
        moment: datagram.moment,
    };
    match registrar.take(datagram.alloc, server, &arrival) {
        Ok(notify) => RegisterOutcome::Taken {
            notified: acknowledge(wires, datagram, &notify),
        },
        Err(refusal) => RegisterOutcome::Refused(refusal),
    }
}

/// Sends a Map-Notify, if there is one. Returns whether it was sent without a fault.
fn acknowledge<W: Wires>(
    wires: &mut W,
    datagram: &ReceivedDatagram<'_>,
    notify: &Option<Vec<u8>>,
) -> bool
    ensures { (tries : List ACall) × RecordsCalls (W.calls wires.old) tries (W.calls wires.new)
        × AreTried datagram.now.at (notify_to_sender datagram.now.packet (option_map (λ v. v.items) notify.now)) tries
        × (result ≡ first_went_out tries) }
{
    match notify {
        Some(bytes) => {
            let to = datagram.packet.from;
            let sent = wires.send(datagram.at, to, CONTROL_PORT, bytes.as_slice());
            sent.is_ok()
        }
        None => false,
    }
}
