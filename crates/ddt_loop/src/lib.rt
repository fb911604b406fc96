//! A running resolver and the servers of a register, over wires: its turns, from a list of identifiers to the end of
//! each lookup.
//!
//! In reading order: `clock`, `lookup_end`, `requester`, `requesters`, `start_lookups`, `packet_outcome`,
//! `resolver_steps`, `socket_polls`, `loop_turns`; `running_resolver` is the same resolver for ITRs alone, whose caller
//! makes the turns.
//! Tests: tests/crates/lookup/turns.
#![tactic(auto)]

mod clock;
mod lookup_end;
mod packet_outcome;
mod requester;
mod requesters;
mod resolver_steps;
mod running_resolver;
mod socket_polls;
mod start_lookups;
mod turn_loop;

pub use clock::{Clock, FixedClock, SteppingClock, SystemClock};
pub use lookup_end::LoopEnd;
pub use packet_outcome::{DatagramOutcome, Ended, PacketOutcome};
pub use running_resolver::{RunningResolver, fair_runs_are_right};
pub use socket_polls::SocketMap;
pub use turn_loop::loop_turns;
