//! Servers and a resolver together: lookups that follow Map-Referrals from the root to an outcome.
//!
//! In reading order: `servers`, `compiled_servers`, `laws`, `lookup_result`, `exchange`, `one_lookup`, `schedule`,
//! `schedule_run`.
//! Tests: tests/crates/lookup/sim.
#![tactic(auto)]

mod compiled_servers;
mod exchange;
mod laws;
mod lookup_result;
mod one_lookup;
mod schedule;
mod schedule_run;
mod servers;

pub use compiled_servers::Compiled;
pub use laws::{
    a_lookup_has_two_passes, a_step_keeps_a_resolver_sound, a_step_keeps_starts_true,
    honest_replies_are_inside,
};
pub use lookup_result::{Hop, Lookup, LookupError};
pub use one_lookup::lookup;
pub use schedule::{Datagram, Event, Step, Transcript};
pub use schedule_run::run;
pub use servers::Servers;
