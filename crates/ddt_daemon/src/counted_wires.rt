//! Wires that count their packets and faults.

ghost use Rattle.std.specs.Prelude.{◌≡◌, ◌≤◌, [], ◌∷◌, length, IfOk, IfSome};
ghost use Rattle.ddt_sockets.specs.declared.wire_calls.Call.TheVariants.{Tried};
ghost use Rattle.ddt_sockets.specs.Calls.{RecordsCalls, received};
ghost use Rattle.ddt_daemon.specs.Counted.{no_call, with_received, with_sent};

use crate::counts::one_more;
use ddt_path::Locator;
use ddt_sockets::{NetFault, Packet, Wires};

/// The counts of the calls of wires.
#[derive(Clone, Copy, Debug, Default, PartialEq, Eq)]
pub struct WireCounts {
    /// Packets received.
    pub received: u64,
    /// Failed calls of `receive`.
    pub unreceived: u64,
    /// Datagrams sent.
    pub sent: u64,
    /// Failed calls of `send`.
    pub unsent: u64,
}

impl WireCounts {
    /// Counts a call of `receive`.
    fn receive_one(&mut self, answer: &Result<Option<Packet>, NetFault>)
        ensures { self.new ≡ with_received self.old answer.now }
    {
        match answer {
            Ok(Some(_packet)) => self.received = one_more(self.received),
            Ok(None) => {}
            Err(_fault) => self.unreceived = one_more(self.unreceived),
        }
    }

    /// Counts a call of `send`.
    fn send_one(&mut self, answer: &Result<(), NetFault>)
        ensures { self.new ≡ with_sent self.old answer.now }
    {
        match answer {
            Ok(()) => self.sent = one_more(self.sent),
            Err(_fault) => self.unsent = one_more(self.unsent),
        }
    }
}

/// Wires that count their packets and faults.
#[derive(Drop)]
pub struct CountedWires<W: Wires + Drop> {
    pub wires: W,
    pub counts: WireCounts,
}

impl<W: Wires + Drop> CountedWires<W> {
    /// Wraps wires, with all counts 0.
    pub fn new(wires: W) -> CountedWires<W>
        ensures wires { result.wires ≡ wires }
        ensures counts { result.counts ≡ no_call }
    {
        CountedWires {
            wires,
            counts: WireCounts::default(),
        }
    }
}

impl<W: Wires + Drop> Wires for CountedWires<W> {
    ghost calls = { λ counted. W.calls counted.wires };

    fn receive(&mut self, at: Locator, buffer: &mut [u8]) -> Result<Option<Packet>, NetFault>
        ensures fits { IfOk result (λ answer. IfSome answer (λ packet. packet.len ≤ length buffer.new)) }
        ensures told { RecordsCalls (W.calls self.old.wires) (received at result buffer.new ∷ [])
            (W.calls self.new.wires) }
        ensures counts { self.new.counts ≡ with_received self.old.counts result }
    {
        let answer = self.wires.receive(at, buffer);
        self.counts.receive_one(&answer);
        answer
    }

    fn send(&mut self, at: Locator, to: Locator, port: u16, bytes: &[u8]) -> Result<(), NetFault>
        ensures told { RecordsCalls (W.calls self.old.wires) (Tried at to port bytes.now result ∷ [])
            (W.calls self.new.wires) }
        ensures counts { self.new.counts ≡ with_sent self.old.counts result }
    {
        let answer = self.wires.send(at, to, port, bytes);
        self.counts.send_one(&answer);
        answer
    }
}
