//! The rounds of a daemon: those of a server at its sockets, and those of a Map-Resolver between ITRs, servers and
//! Map-Servers. Also what a daemon counts, and its control commands.
//!
//! In reading order: `control_word`, `counts`, `counted_wires`, `answers`, `service`, `sending`, `log_events`,
//! `log_queue`, `server_record`, `server_round`, `itr_requests`, `admission`, `recent_requests`, `etr_forward`,
//! `map_resolver`, `laws`, `statistics`.
//!
//! Calls that return `AllocError` fail only if out of memory.
//! Tests: tests/crates/daemon/resolving, serving, itr_service, etr_forward and control_words.
#![tactic(auto)]

mod admission;
mod answers;
mod control_word;
mod counted_wires;
mod counts;
mod etr_forward;
mod itr_requests;
mod laws;
mod log_events;
mod log_queue;
mod map_resolver;
mod recent_requests;
mod sending;
mod server_record;
mod server_round;
mod service;
mod statistics;

pub use admission::Dropped;
pub use answers::{AnswerCounts, CountedAnswers};
pub use control_word::{ControlWord, WORDS};
pub use counted_wires::{CountedWires, WireCounts};
pub use counts::{ResolverCounts, ServerCounts};
pub use etr_forward::{send_on, with_d};
pub use laws::{a_map_resolver_runs, an_itr_request_goes_on_as_it_came};
pub use log_events::{GivenUpLookup, UnrecognizedMessage};
pub use map_resolver::MapResolver;
pub use server_record::ServerRecord;
pub use server_round::{ServerSocket, serve_packet, serve_ready};
pub use service::{Service, ServiceResult};
pub use statistics::{DaemonStatistics, ResolverStatistics, ServerStatistics, Times};
