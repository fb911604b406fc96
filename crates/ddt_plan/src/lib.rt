//! What a register assigns to all identifiers, block by block, and what a change of the register changes (RFC 8111,
//! section 7.3: what following referrals from the root has to end in).
//!
//! No list of blocks or changes is kept: a walk down the digits gives each block or change to a sink as it finds it. A
//! walk of changes ends where both registers have the same zones and sites. `differences` lists the prefixes at which
//! they differ, and `skip_unchanged` skips the digits between these. A `SortedPair` keeps two registers sorted for any
//! number of walks. `groups` compares the configurations that `ddt_compile` makes of both registers, whatever the order
//! of their rows. `items` compares the rows of both registers by their keys.
//!
//! In reading order: `sink`, `block_list`, `change_list`, `outcomes`, `counts`; `walk`, with `skip_unchanged`,
//! `differences`, `sides`, `prefix_halves` and `servers` below it; `groups`, with `versions` and `config_comparison`
//! below it; `items`, with `pairs_by_key` below it; and `laws`.
//! Tests: tests/crates/register/plan.
#![tactic(auto)]

mod block_list;
mod change_list;
mod config_comparison;
mod counts;
mod differences;
mod groups;
mod items;
mod laws;
mod outcomes;
mod pairs_by_key;
mod prefix_halves;
mod servers;
mod sides;
mod sink;
mod skip_unchanged;
mod versions;
mod walk;

pub use block_list::{Block, blocks};
pub use change_list::{Change, SortedPair, changes, changes_of_sorted};
pub use counts::{ChangeCounts, CountFull, OutcomeCounts};
pub use groups::{GroupChange, GroupChangeKind, group_changes};
pub use items::{
    GroupServers, ItemChange, ItemChanges, ServingGroup, item_changes, serving_groups,
};
pub use laws::{a_block_is_assigned_alike, a_negative_is_its_block, exactly_the_same_is_equal};
pub use outcomes::{Reading, is_same_outcome};
pub use pairs_by_key::Pair;
pub use sink::{PlanFault, Sink};
pub use versions::{Versions, versions_by_name};
