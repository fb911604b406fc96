//! A DDT Map-Resolver (RFC 8111, section 7.3) as a state machine. Its calls are an ask, a datagram, a tick, and the
//! hastening of a lookup. It has no sockets and no clock: a call takes the time, and returns the datagram to send.
//!
//! In reading order: `results`, `limits`, `pending`, `ticketed_lookup`, `table`, `resolver`, `asks`, `replies`,
//! `zone_cut`, `loop_detection`, `actions`, `ticks`, `step`, `requests`, `laws`; `itr_messages` has the messages of
//! ITRs.
//! Tests: tests/crates/resolver.
#![tactic(auto)]

mod actions;
mod asks;
mod itr_messages;
mod laws;
mod limits;
mod loop_detection;
mod pending;
mod replies;
mod requests;
mod resolver;
mod results;
mod step;
mod table;
mod ticketed_lookup;
mod ticks;
mod zone_cut;

pub use ddt_cache::Moment;
pub use itr_messages::{Front, ItrRequest, MOST_REPLY_BYTES};
pub use laws::{order_is_kept, tickets_are_new, usable_is_taken};
pub use limits::MOST_PENDING;
pub use pending::Pending;
pub use resolver::Resolver;
pub use results::{AskError, Asked, Beginning, Heard, Ignored, Outgoing, Ticked, Ticket, Why};
pub use step::{Input, Progress, Reply};
