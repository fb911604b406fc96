//! The words that all crates speak.
//!
//! In reading order: `locator`, `xeid`, `form`, `prefix` (with `masks` below them), `prefixed`, `matches`;
//! `locator_set`, `action`, `ttl`, `record`; `name`, `listed`; and the `laws` of holes.
//! Tests: tests/crates/format/prefixes/path.
#![tactic(auto)]

mod action;
mod form;
mod laws;
mod listed;
mod locator;
mod locator_set;
mod masks;
mod matches;
mod name;
mod prefix;
mod prefixed;
mod record;
mod ttl;
mod xeid;

pub use action::Action;
pub use form::{Form, PrefixFault};
pub use laws::{
    a_hole_is_free, no_hole_under_a_key, none_free_is_covered, one_hole_for_all_it_covers,
};
pub use listed::Listed;
pub use locator::{Locator, are_distinct};
pub use locator_set::{LocatorSet, MOST_LOCATORS};
pub use matches::{Preference, best_match, longest_match, shortest_match};
pub use name::{LONGEST_NAME, Name};
pub use prefix::Prefix;
pub use prefixed::Prefixed;
pub use record::{Outcome, ReferralRecord, Role};
pub use ttl::{HOLE_TTL, NOT_AUTHORITATIVE_TTL, NOT_REGISTERED_TTL, POSITIVE_TTL};
pub use xeid::Xeid;
