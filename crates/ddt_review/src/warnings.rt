//! What an accepted register has that is mostly a mistake, though it breaks no rule.
//!
//! In reading order: `kind`, `unreachable_locators`, `warning`, `all_warnings`, `has_warnings`, `of_groups`,
//! `of_sites`, `of_zones`, and `index` with `by_prefix`, `zone_tree`, `children`, `delegations`, `servers` and
//! `neighbouring_sites` below it. What a later register lacks of an earlier one: `lost_sites`, `missing_zone` and
//! `truncated_file`.
//! Tests: tests/crates/review/warnings.

mod all_warnings;
mod by_prefix;
mod children;
mod delegations;
mod has_warnings;
mod index;
mod kind;
mod lost_sites;
mod missing_zone;
mod neighbouring_sites;
mod of_groups;
mod of_sites;
mod of_zones;
mod servers;
mod truncated_file;
mod unreachable_locators;
mod warning;
mod zone_tree;

pub use all_warnings::warnings;
pub use kind::Kind;
pub use lost_sites::LostSites;
pub use missing_zone::{ZonelessSite, zoneless_sites};
pub use truncated_file::{Truncation, truncation_of};
pub use unreachable_locators::{UnreachableReason, unreachable_reason};
pub use warning::{Finding, Warning};
