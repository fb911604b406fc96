//! A log of the calls of wires.

ghost use Rattle.std.specs.Prelude.{◌≡◌, ◌≤◌, ◌++◌, [], ◌∷◌, length, IfOk, IfSome};
ghost use Rattle.ddt_sockets.specs.declared.wire_calls.Call.TheVariants.{Tried};
ghost use Rattle.ddt_sockets.specs.Calls.{RecordsCalls, received};

use crate::{Call, NetFault, Packet};
use ddt_path::{Listed, Locator};
use std::alloc::Global;

/// The recorded calls of wires, in order; None if calls aren't recorded, or no longer are.
#[derive(Drop)]
pub(crate) struct CallLog {
    alloc: Global,
    pub calls: Option<Listed<Call>>,
}

impl CallLog {
    /// Creates an empty log; without `tells` it records nothing.
    pub fn new(alloc: Global, tells: bool) -> CallLog
        ensures { IfSome result.calls (λ calls. calls ≡ []) }
    {
        let calls = if tells {
            Some(Listed::of(Vec::new(alloc)))
        } else {
            None
        };
        CallLog { alloc, calls }
    }

    /// Records a call of `receive` that left this buffer. After a call for which memory was short, none is recorded.
    pub fn note_received(
        &mut self,
        at: Locator,
        answer: Result<Option<Packet>, NetFault>,
        buffer: &[u8],
    )
        requires { IfOk answer (λ answer. IfSome answer (λ p. p.len ≤ length buffer.now)) }
        ensures { RecordsCalls self.old.calls (received at answer buffer.now ∷ []) self.new.calls }
    {
        let Some(calls) = self.calls.take() else {
            return;
        };
        let len = match answer {
            Ok(Some(packet)) => packet.len,
            Ok(None) | Err(_) => 0,
        };
        let Ok(bytes) = Vec::from_slice(self.alloc, &buffer[..len]) else {
            return;
        };
        self.calls = with_call(
            calls,
            Call::Received {
                at,
                room: buffer.len(),
                answer,
                bytes: Listed::of(bytes),
            },
        );
    }

    /// Records a call of `send`. After a call for which memory was short, none is recorded.
    pub fn note_tried(
        &mut self,
        at: Locator,
        to: Locator,
        port: u16,
        bytes: &[u8],
        answer: Result<(), NetFault>,
    )
        ensures { RecordsCalls self.old.calls (Tried at to port bytes.now answer ∷ []) self.new.calls }
    {
        let Some(calls) = self.calls.take() else {
            return;
        };
        let Ok(bytes) = Vec::from_slice(self.alloc, bytes) else {
            return;
        };
        self.calls = with_call(
            calls,
            Call::Tried {
                at,
                to,
                port,
                bytes: Listed::of(bytes),
                answer,
            },
        );
    }
}

/// The calls with one more; None if out of memory.
fn with_call(told: Listed<Call>, call: Call) -> Option<Listed<Call>>
    ensures { IfSome result (λ calls. calls ≡ told ++ call ∷ []) }
{
    let mut calls = told.into_vec();
    calls.push(call).ok()?;
    Some(Listed::of(calls))
}
