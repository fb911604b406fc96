//! Wires: sockets that receive and send datagrams, each identified by the locator that it is bound to.

ghost use Rattle.std.specs.Prelude.{◌≤◌, length, List, [], ◌∷◌, Option, None, IfOk, IfSome};
ghost use Rattle.ddt_sockets.specs.declared.wire_calls.Call.{Call as ACall};
ghost use Rattle.ddt_sockets.specs.declared.wire_calls.Call.TheVariants.{Tried};
ghost use Rattle.ddt_sockets.specs.Calls.{RecordsCalls, received};

use crate::wire_calls::{NetFault, Packet};
use ddt_path::Locator;

/// Sockets that receive and send datagrams.
pub trait Wires {
    /// The calls so far, in order; None for wires that don't record their calls, or no longer do.
    ghost calls: { Self → Option (List ACall) } = { λ _. None };

    /// Receives a datagram at the socket of a locator and writes its bytes to the front of the buffer; None if none
    /// came in time. Refused as 1 Receive if a datagram couldn't be received, which then is lost. The packet's length
    /// is at most the buffer's.
    fn receive(&mut self, at: Locator, buffer: &mut [u8]) -> Result<Option<Packet>, NetFault>
        ensures fits { IfOk result (λ answer. IfSome answer (λ packet. packet.len ≤ length buffer.new)) }
        ensures told { RecordsCalls (calls self.old) (received at result buffer.new ∷ []) (calls self.new) };

    /// Sends a datagram from the socket of a locator to an address and UDP port. Refused as 2 Send if that failed; the
    /// datagram then is lost.
    fn send(&mut self, at: Locator, to: Locator, port: u16, bytes: &[u8]) -> Result<(), NetFault>
        ensures told { RecordsCalls (calls self.old) (Tried at to port bytes.now result ∷ []) (calls self.new) };
}
