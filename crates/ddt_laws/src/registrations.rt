//! Laws of registrations. Whatever is registered, a Map-Server answers by a configuration of an accepted register, in
//! which only the ETRs of keyed sites differ. Other laws say what a Map-Register, the clock and a reload change.
//!
//! In reading order: `laws`, `ranges`, `steps`.

mod laws;
mod ranges;
mod steps;

pub use laws::{etrs_are_compiled, other_etrs_are_accepted, some_register_is_in_force};
pub use ranges::keyed_sites_are_in_range;
pub use steps::{
    messages_are_guarded, messages_leave_the_rest, reloads_are_guarded,
    the_clock_ends_registrations,
};
