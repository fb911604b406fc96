//! Map-Referrals and Map-Requests as other implementations write them, and the same in the one spelling.
//!
//! In reading order: `fault`; for Map-Referrals `sections`, `entry`, `entries`, `order`, `record`, `plain`; for
//! Map-Requests `itr_rlocs`, `request`; `laws`.
//! Tests: tests/crates/format/messages/foreign.
#![tactic(auto)]

mod entries;
mod entry;
mod fault;
mod itr_rlocs;
mod laws;
mod order;
mod plain;
mod record;
mod request;
mod sections;

pub use entries::Entries;
pub use entry::Entry;
pub use fault::{ForeignFault, ForeignRequestFault};
pub use itr_rlocs::ItrRlocs;
pub use laws::{
    foreign_request_laws, locators_are_ordered, what_is_given_stays, what_is_spelled_is_taken,
    what_the_core_reads_is_taken, what_the_core_reads_stays,
};
pub use order::{Ranked, put_ranked};
pub use plain::{Plain, plain_referral, read_foreign};
pub use record::ForeignRecord;
pub use request::{ForeignRequest, plain_request, read_foreign_request};
