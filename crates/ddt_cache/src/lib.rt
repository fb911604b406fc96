//! A resolver's cache of referrals (RFC 8111, section 7.3): each saved record until its end, found by the longest
//! prefix that covers an identifier.
//!
//! In reading order: `limits`, `moment`, `cache_entry`, `cache`, `saved_records`, `longest_live_match`,
//! `entry_removal`, `ends_by_time`, `entries_inside`, `laws`.
//! Tests: tests/crates/resolver/cache.
#![tactic(auto)]

mod cache;
mod cache_entry;
mod ends_by_time;
mod entries_inside;
mod entry_removal;
mod laws;
mod limits;
mod longest_live_match;
mod moment;
mod saved_records;

pub use cache::Cache;
pub use cache_entry::{Entry, Saved};
pub use laws::{one_is_found, order_is_kept, saved_until_its_end, time_moves_on};
pub use limits::MOST_LIVE_ENTRIES;
pub use moment::{LAST_MOMENT, Moment};
