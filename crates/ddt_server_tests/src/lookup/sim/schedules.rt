//! Steps of a schedule, each with the text of its event, and two schedules.

use crate::lookup::texts::identifier;
use ddt_sim::Step;
use std::test::Fail;

/// A step; the identifier that is asked for is a text.
#[derive(Clone, Copy)]
pub enum Act {
    Ask(&'static str),
    Deliver(u64),
    Pass(u64),
    Tick,
    Replace(u64),
}

/// Steps, each with the text of its event. An answer at once has no ticket.
pub type Lines = &'static [(Act, &'static str)];

/// Two lookups, whose datagrams come out of order, late and twice.
pub const SIDE_BY_SIDE: Lines = &[
    (Act::Ask("[0]10.1.2.3"), "ticket 1 asks 127.0.0.1"),
    (Act::Ask("[0]10.2.0.1"), "ticket 2 asks 127.0.0.1"),
    (Act::Deliver(0), "reply 2"),
    (Act::Deliver(1), "reply 3"),
    (Act::Deliver(3), "ticket 2 asks 127.0.0.10"),
    (Act::Deliver(2), "ticket 1 asks 127.0.0.10"),
    (Act::Deliver(2), "ignored 2 UnknownNonce"),
    (Act::Deliver(4), "reply 6"),
    (Act::Deliver(6), "ticket 2 answer hole [0]10.2.0.0/15"),
    (Act::Deliver(6), "ignored 2 UnknownNonce"),
    (Act::Pass(2_000), "now 2000"),
    (Act::Deliver(5), "reply 7"),
    (Act::Deliver(7), "ignored 4 Late"),
    (Act::Tick, "ticket 1 asks 127.0.0.10"),
    (Act::Deliver(7), "ignored 2 UnknownNonce"),
    (Act::Tick, "nothing"),
    (Act::Deliver(8), "reply 9"),
    (Act::Deliver(9), "ticket 1 asks 127.0.1.1"),
    (Act::Deliver(10), "reply 11"),
    (
        Act::Deliver(11),
        "ticket 1 answer registered [0]10.1.2.0/24 127.0.1.1 127.0.1.2",
    ),
    (Act::Ask("[0]10.2.5.5"), "answer hole [0]10.2.0.0/15"),
    (Act::Deliver(99), "nothing"),
];

/// A zone comes, goes, comes and goes again while its identifier is looked up: the last hole is that of the register
/// that went out of force last.
pub const A_ZONE_COMES_AND_GOES: Lines = &[
    (Act::Ask("[0]10.2.0.1"), "ticket 1 asks 127.0.0.1"),
    (Act::Deliver(0), "reply 1"),
    (Act::Deliver(1), "ticket 1 asks 127.0.0.10"),
    (Act::Replace(1), "replaced 1"),
    (Act::Deliver(2), "reply 3"),
    (Act::Deliver(3), "ticket 1 asks 127.0.0.9"),
    (Act::Replace(0), "replaced 0"),
    (Act::Deliver(4), "silent"),
    (Act::Pass(2_000), "now 2000"),
    (Act::Tick, "ticket 1 asks 127.0.0.9"),
    (Act::Replace(1), "replaced 1"),
    (Act::Deliver(5), "reply 6"),
    (Act::Deliver(6), "ticket 1 answer hole [0]10.2.0.0/16"),
    (Act::Replace(0), "replaced 0"),
    (Act::Ask("[0]10.2.0.1"), "answer hole [0]10.2.0.0/16"),
    (Act::Replace(9), "nothing"),
];

/// The step of an act.
pub fn step_of(act: Act) -> Result<Step, Fail> {
    Ok(match act {
        Act::Ask(text) => Step::Ask(identifier(text)?),
        Act::Deliver(number) => Step::Deliver(number),
        Act::Pass(millis) => Step::Pass(millis),
        Act::Tick => Step::Tick,
        Act::Replace(number) => Step::Replace(number),
    })
}
