//! The tries of a question: each sends the request and waits for the reply.

ghost use Rattle.std.specs.Prelude.{◌≡◌, ◌≤◌, List, length, take, IfSome};
ghost use Rattle.std.specs.Option.{option_map};
ghost use Rattle.ddt_sockets.specs.Turns.{most_bytes};
ghost use Rattle.ddt_asking.specs.Steps.{WireStep as AStep, HasDone};
ghost use Rattle.ddt_asking.specs.Tries.{IsTry, AreTries};

use crate::await_reply::{Wait, await_reply};
use crate::probe_options::ProbeOptions;
use crate::reply_match::AwaitedReply;
use ddt_ecm::CONTROL_PORT;
use ddt_loop::Clock;
use ddt_sockets::Wires;

/// Tries a question until a reply comes, at most `options.tries` times. Returns the length of the reply, which is at
/// the front of the buffer; None if no try brought one.
pub(crate) fn try_until_reply<W: Wires, C: Clock>(
    wires: &mut W,
    clock: &mut C,
    buffer: &mut [u8],
    options: &ProbeOptions,
    request: &[u8],
    awaited: AwaitedReply,
) -> Option<usize>
    requires { length buffer.old ≡ most_bytes }
    ensures tried { (steps : List AStep)
        × HasDone (W.calls wires.old) (W.calls wires.new) (C.readings clock.old) (C.readings clock.new) steps
        × AreTries options.now request.now awaited steps (option_map (λ len. take len buffer.new) result) }
    ensures within { IfSome result (λ len. len ≤ length buffer.new) }
    ensures room { length buffer.new ≡ most_bytes }
{
    for _try in 0..options.tries {
        let reply = try_once(wires, clock, buffer, options, request, awaited);
        if reply.is_some() {
            return reply;
        }
    }
    None
}

/// Tries a question once: sends its request to UDP port 4342 of the server and waits for the reply. Doesn't wait if the
/// request can't be sent.
fn try_once<W: Wires, C: Clock>(
    wires: &mut W,
    clock: &mut C,
    buffer: &mut [u8],
    options: &ProbeOptions,
    request: &[u8],
    awaited: AwaitedReply,
) -> Option<usize>
    requires { length buffer.old ≡ most_bytes }
    ensures tried { (steps : List AStep)
        × HasDone (W.calls wires.old) (W.calls wires.new) (C.readings clock.old) (C.readings clock.new) steps
        × IsTry options.now request.now awaited steps (option_map (λ len. take len buffer.new) result) }
    ensures within { IfSome result (λ len. len ≤ length buffer.new) }
    ensures room { length buffer.new ≡ most_bytes }
{
    let sent = wires.send(options.me, awaited.from, CONTROL_PORT, request);
    let now = clock.now().millis();
    if sent.is_err() {
        return None;
    }
    await_reply(
        wires,
        clock,
        buffer,
        &Wait {
            at: options.me,
            awaited: Some(awaited),
            since: now,
            millis: options.millis,
        },
    )
}
