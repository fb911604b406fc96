//! The turns of a running resolver.

ghost use Rattle.std.specs.Prelude.{◌≡◌, ℕ, true, List, length, count_by, IfOk, OnErr};
ghost use Rattle.std.specs.List.{AllZip};
ghost use Rattle.ddt_register.specs.declared.register.Register.{Register};
ghost use Rattle.ddt_sockets.specs.declared.wire_calls.Call.{Call as ACall};
ghost use Rattle.ddt_sockets.specs.Calls.{RecordsCalls};
ghost use Rattle.ddt_sockets.specs.Turns.{most_bytes};
ghost use Rattle.ddt_sim.specs.Sound.{IsSound};
ghost use Rattle.ddt_loop.specs.Requesters.{AreWaiting, has_unresolved};
ghost use Rattle.ddt_loop.specs.Acts.{running};
ghost use Rattle.ddt_loop.specs.Turns.{IsLoopTurn, TurnsWithin, IsLoop};
ghost use Rattle.ddt_loop.specs.Right.{IsRightLoopEnd, RepliesAreOwed, WhenFair, WhenTold, is_poll};

use crate::clock::Clock;
use crate::lookup_end::LoopEnd;
use crate::requesters::Requesters;
use crate::resolver_steps::{Here, resolve};
use crate::socket_polls::{PollTurn, SocketMap, poll_in_turn};
use crate::start_lookups::ask_all;
use ddt_cache::Entry;
use ddt_path::Xeid;
use ddt_resolver::{Input, Resolver};
use ddt_sim::a_step_keeps_a_resolver_sound;
use ddt_sockets::{MOST_BYTES, Wires};
use ddt_trie::PrefixMap;
use std::alloc::{AllocError, Global};

/// Looks identifiers up over wires, and returns one end for each, in order. The resolver's own socket is at `tree.me`,
/// and the sockets of the register's servers at `tree.sockets`.
///
/// The clock is read once, and the resolver is asked for all identifiers in order. Then each turn reads the clock once,
/// polls one socket and ticks once. The resolver's socket is polled first, then the servers' in order, over and over.
/// The turns end as soon as all lookups have ended, and at the latest after `turns` turns.
///
/// A packet at a server's socket gets the server's reply, sent to its source address and port; no request is sent on to
/// an ETR. At the resolver's socket a datagram whose first four bits are 8 is looked up if it is an ITR's request. Any
/// other datagram is a reply to the resolver if it comes from UDP port 4342. An ITR is sent the negative Map-Reply for
/// a hole or a site that isn't registered, and nothing for another end.
///
/// A failed `receive` or `send` loses one datagram. If memory runs out in a turn, the packet at hand is lost, but no
/// reply to an ITR; a lost tick is due again in the next turn. A refused ask, also for memory, is the end of its
/// identifier: at most 1,024 lookups are pending (RFC 8111, section 7.3; RFC 9301, sections 5.4 and 5.8).
///
/// Fails only if out of memory for its own lists, before the first ask.
pub fn loop_turns<W: Wires, C: Clock, N: PrefixMap<u32>, M: PrefixMap<Entry>>(
    wires: &mut W,
    clock: &mut C,
    tree: &SocketMap<'_, N>,
    resolver: &mut Resolver<M>,
    ids: &[Xeid],
    turns: u32,
) -> Result<Vec<LoopEnd>, AllocError>
    // If the recorded calls are fair, each end is right for its identifier: an outcome is what the register assigns.
    ensures answers { IfOk result (λ ends. WhenFair tree.now.servers.now resolver.old tree.now.me tree.now.sockets.now
        (W.calls wires.old) (W.calls wires.new) (λ r calls. AllZip (IsRightLoopEnd r) ids.now ends.items)) }
    // Each reply to an ITR is for what the register assigns, and each request gets at most one.
    ensures replies { IfOk result (λ ends. WhenFair tree.now.servers.now resolver.old tree.now.me tree.now.sockets.now
        (W.calls wires.old) (W.calls wires.new) (λ r calls. RepliesAreOwed r tree.now.me calls)) }
    ensures sound { IfOk result (λ ends. WhenFair tree.now.servers.now resolver.old tree.now.me tree.now.sockets.now
        (W.calls wires.old) (W.calls wires.new) (λ r calls. IsSound r resolver.new)) }
    // An identifier is unresolved only after `turns` polls.
    ensures unresolved { IfOk result (λ ends. WhenTold (W.calls wires.old) (W.calls wires.new)
        (λ calls. has_unresolved ends.items ≡ true → count_by is_poll calls ≡ turns)) }
    // Whatever comes: some moments and some calls are those of such a run. A clock that records its readings has
    // recorded just these moments, and wires that record their calls just these calls.
    ensures run { IfOk result (λ ends. (moments : List ℕ) × (calls : List ACall)
        × RecordsCalls (C.readings clock.old) moments (C.readings clock.new)
        × RecordsCalls (W.calls wires.old) calls (W.calls wires.new)
        × IsLoop tree.now.servers.now resolver.old tree.now.me tree.now.sockets.now ids.now turns moments calls
        ends.items resolver.new) }
    // If out of memory, nothing was done.
    ensures undone { OnErr result (resolver.new ≡ resolver.old) }
    ensures untold { OnErr result (W.calls wires.new ≡ W.calls wires.old) }
    ensures unread { OnErr result (C.readings clock.new ≡ C.readings clock.old) }
{
    a_step_keeps_a_resolver_sound();
    resolver.in_order();
    let mut requesters = Requesters::new(resolver.alloc(), ids)?;
    let now = clock.now();
    // Read for its bound: no moment is later than the last.
    let _millis = now.millis();
    let here = Here {
        me: tree.me,
        moment: now,
    };
    ask_all(wires, resolver, &here, ids, &mut requesters);
    take_turns(wires, clock, tree, resolver, &mut requesters, turns);
    Ok(requesters.into_ends())
}

/// Takes turns until the lookups of all identifiers have ended, at most `turns`.
fn take_turns<W: Wires, C: Clock, N: PrefixMap<u32>, M: PrefixMap<Entry>>(
    wires: &mut W,
    clock: &mut C,
    tree: &SocketMap<'_, N>,
    resolver: &mut Resolver<M>,
    requesters: &mut Requesters,
    turns: u32,
)
    requires { AreWaiting resolver.old requesters.old.waiting }
    ensures { (moments : List ℕ) × (calls : List ACall)
        × RecordsCalls (C.readings clock.old) moments (C.readings clock.new)
        × RecordsCalls (W.calls wires.old) calls (W.calls wires.new)
        × TurnsWithin tree.now.servers.now tree.now.me tree.now.sockets.now turns (running resolver.old requesters.old)
        moments calls (running resolver.new requesters.new) }
{
    let mut buffer = [0; MOST_BYTES];
    for number in 0..turns {
        if !requesters.have_unresolved() {
            return;
        }
        let turn = PollTurn {
            number,
            moment: clock.now(),
        };
        take_turn(wires, tree, resolver, requesters, &turn, &mut buffer);
    }
}

/// Takes one turn: a poll and a tick.
fn take_turn<W: Wires, N: PrefixMap<u32>, M: PrefixMap<Entry>>(
    wires: &mut W,
    tree: &SocketMap<'_, N>,
    resolver: &mut Resolver<M>,
    requesters: &mut Requesters,
    turn: &PollTurn,
    buffer: &mut [u8],
)
    requires buffer { length buffer.old ≡ most_bytes }
    requires waiting { AreWaiting resolver.old requesters.old.waiting }
    ensures turn { (calls : List ACall) × RecordsCalls (W.calls wires.old) calls (W.calls wires.new)
        × IsLoopTurn tree.now.servers.now tree.now.me tree.now.sockets.now turn.now.number turn.now.moment
        (running resolver.old requesters.old) calls (running resolver.new requesters.new) }
    ensures waiting { AreWaiting resolver.new requesters.new.waiting }
{
    // Read for its bound: no moment is later than the last.
    let _millis = turn.moment.millis();
    poll_in_turn(wires, tree, resolver, requesters, turn, buffer);
    let here = Here {
        me: tree.me,
        moment: turn.moment,
    };
    let _heard = resolve(wires, resolver, &here, requesters, Input::Tick);
}
