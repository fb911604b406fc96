//! Wires without a network, for tests.

ghost use Rattle.std.specs.Prelude.{◌≡◌, ◌≤◌, ◌++◌, [], ◌∷◌, length, Some, IfErr, IfOk, IfSome};
ghost use Rattle.std.specs.Option.{option_map};
ghost use Rattle.ddt_sockets.specs.Calls.{RecordsCalls, packet_bytes};

use crate::wire_calls::{Call, NetFault, Packet};
use crate::wires::Wires;
use ddt_path::{Listed, Locator};
use std::alloc::{AllocError, Global};

/// A datagram that waits at a socket to be received.
#[derive(Debug, Drop)]
pub struct WaitingDatagram {
    /// The socket.
    pub at: Locator,
    /// The source address.
    pub from: Locator,
    /// The source UDP port.
    pub port: u16,
    /// Its bytes.
    pub bytes: Listed<u8>,
}

/// Wires in memory. Datagrams wait in one list, and each socket receives its own in order. The wires record their
/// calls; one call can be made to fail, which loses its datagram. After a call for which memory was short, they record
/// none.
#[derive(Drop)]
pub struct WiresInMemory {
    alloc: Global,
    waiting: Vec<WaitingDatagram>,
    /// The number of calls made.
    made: u64,
    /// The number of the call that fails; the first is 1.
    failing: u64,
    recorded: Option<Listed<Call>>,
}

impl WiresInMemory {
    /// Creates wires at which nothing waits. The call with number `failing` fails; the first call is 1, so with 0 none
    /// fails.
    pub fn new(alloc: Global, failing: u64) -> WiresInMemory
        ensures recorded { result.recorded ≡ Some [] }
        ensures waiting { result.waiting.items ≡ [] }
        ensures failing { (result.made ≡ 0) × (result.failing ≡ failing) }
    {
        WiresInMemory {
            alloc,
            waiting: Vec::new(alloc),
            made: 0,
            failing,
            recorded: Some(Listed::of(Vec::new(alloc))),
        }
    }

    /// Appends a datagram to those that wait. Fails only if out of memory; then nothing changes.
    pub fn add(&mut self, datagram: WaitingDatagram) -> Result<(), AllocError>
        ensures added { IfOk result (λ _. self.new.waiting.items ≡ self.old.waiting.items ++ datagram ∷ []) }
        ensures refused { IfErr result (λ _. self.new.waiting.items ≡ self.old.waiting.items) }
        ensures others { (self.new.recorded ≡ self.old.recorded) × (self.new.made ≡ self.old.made)
            × (self.new.failing ≡ self.old.failing) }
    {
        self.waiting.push(datagram)?;
        Ok(())
    }

    /// The calls made, in order; None if memory was short for one.
    pub fn recorded_calls(&self) -> Option<&[Call]>
        ensures { option_map (λ calls. calls.now) result ≡ self.now.recorded }
    {
        match &self.recorded {
            Some(calls) => Some(calls.as_slice()),
            None => None,
        }
    }

    /// Counts a call, and returns whether it fails.
    fn fails(&mut self) -> bool
        ensures { self.new.recorded ≡ self.old.recorded }
    {
        self.made = self.made.saturating_add(1);
        self.made == self.failing
    }

    /// Removes the first datagram that waits at a socket.
    fn take_at(&mut self, at: Locator) -> Option<WaitingDatagram>
        ensures { self.new.recorded ≡ self.old.recorded }
    {
        let place = self.waiting.as_slice().iter().position(|w| w.at == at)?;
        Some(self.waiting.remove(place))
    }

    /// Records a call. After a call for which memory was short, it records none.
    fn record(&mut self, call: Call)
        ensures { RecordsCalls self.old.recorded (call ∷ []) self.new.recorded }
    {
        self.recorded = match self.recorded.take() {
            Some(recorded) => with_call(recorded, call),
            None => None,
        };
    }
}

/// The calls with one more; None if out of memory.
fn with_call(recorded: Listed<Call>, call: Call) -> Option<Listed<Call>>
    ensures { IfSome result (λ calls. calls ≡ recorded ++ call ∷ []) }
{
    let mut calls = recorded.into_vec();
    calls.push(call).ok()?;
    Some(Listed::of(calls))
}

/// Writes a datagram to the front of the buffer, and returns its packet and its bytes. A datagram that is longer than
/// the buffer is lost.
fn put(
    datagram: WaitingDatagram,
    alloc: Global,
    buffer: &mut [u8],
) -> (Result<Option<Packet>, NetFault>, Listed<u8>)
    ensures fits { IfOk result.0 (λ answer. IfSome answer (λ packet. packet.len ≤ length buffer.new)) }
    ensures bytes { result.1 ≡ packet_bytes result.0 buffer.new }
    ensures room { length buffer.new ≡ length buffer.old }
{
    let WaitingDatagram {
        at: _at,
        from,
        port,
        bytes,
    } = datagram;
    let len = bytes.as_slice().len();
    if len > buffer.len() {
        return (Err(NetFault::Receive), Listed::of(Vec::new(alloc)));
    }
    buffer[..len].copy_from_slice(bytes.as_slice());
    (Ok(Some(Packet { from, port, len })), bytes)
}

impl Wires for WiresInMemory {
    ghost calls = { λ wires. wires.recorded };

    fn receive(&mut self, at: Locator, buffer: &mut [u8]) -> Result<Option<Packet>, NetFault> {
        let room = buffer.len();
        let none = Listed::of(Vec::new(self.alloc));
        let fails = self.fails();
        let (answer, bytes) = match self.take_at(at) {
            _ if fails => (Err(NetFault::Receive), none),
            Some(datagram) => put(datagram, self.alloc, buffer),
            None => (Ok(None), none),
        };
        self.record(Call::Received {
            at,
            room,
            answer,
            bytes,
        });
        answer
    }

    fn send(&mut self, at: Locator, to: Locator, port: u16, bytes: &[u8]) -> Result<(), NetFault> {
        let answer = if self.fails() {
            Err(NetFault::Send)
        } else {
            Ok(())
        };
        match Vec::from_slice(self.alloc, bytes) {
            Ok(bytes) => self.record(Call::Tried {
                at,
                to,
                port,
                bytes: Listed::of(bytes),
                answer,
            }),
            Err(_refused) => self.recorded = None,
        }
        answer
    }
}
