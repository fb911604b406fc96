//! A wait for a reply at a socket, or a pause.

ghost use Rattle.std.specs.Prelude.{◌≡◌, ◌≤◌, List, length, take, IfSome};
ghost use Rattle.std.specs.Option.{option_map};
ghost use Rattle.ddt_sockets.specs.Turns.{most_bytes};
ghost use Rattle.ddt_asking.specs.Steps.{WireStep as AStep, HasDone};
ghost use Rattle.ddt_asking.specs.Waits.{IsWait};

use crate::reply_match::{AwaitedReply, reply_len};
use ddt_loop::Clock;
use ddt_path::Locator;
use ddt_sockets::Wires;

/// The most polls of a wait. If the clock advances, the time is over long before.
const MOST_POLLS: u32 = u32::MAX;

/// A wait at a socket.
#[derive(Clone, Copy)]
pub(crate) struct Wait {
    /// The socket.
    pub(crate) at: Locator,
    /// The awaited reply; None if each packet that comes is dropped.
    pub(crate) awaited: Option<AwaitedReply>,
    /// The start of the wait, in milliseconds.
    pub(crate) since: u64,
    /// The length of the wait, in milliseconds.
    pub(crate) millis: u64,
}

/// Polls a socket until the awaited reply has come or the time is over, and reads the clock after each poll. Returns
/// the length of the reply, which is at the front of the buffer; None if the time is over. A reply at that poll is
/// lost.
pub(crate) fn await_reply<W: Wires, C: Clock>(
    wires: &mut W,
    clock: &mut C,
    buffer: &mut [u8],
    wait: &Wait,
) -> Option<usize>
    requires { length buffer.old ≡ most_bytes }
    ensures waited { (steps : List AStep)
        × HasDone (W.calls wires.old) (W.calls wires.new) (C.readings clock.old) (C.readings clock.new) steps
        × IsWait wait.now steps (option_map (λ len. take len buffer.new) result) }
    ensures within { IfSome result (λ len. len ≤ length buffer.new) }
    ensures room { length buffer.new ≡ most_bytes }
{
    for _poll in 0..MOST_POLLS {
        let answer = wires.receive(wait.at, buffer);
        let now = clock.now().millis();
        if now.saturating_sub(wait.since) >= wait.millis {
            return None;
        }
        let reply = reply_len(answer, buffer, wait.awaited);
        if reply.is_some() {
            return reply;
        }
    }
    None
}
