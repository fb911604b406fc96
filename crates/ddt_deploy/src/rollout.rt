//! The order in which servers load another register's configurations, so that everybody gets an answer meanwhile: a
//! zone's new servers first, then the zones above it, and after the time that referrals are cached the servers that
//! lose a zone (RFC 8111, sections 4 and 6).
//!
//! In reading order: `stage`, `fault`, `config_at_stage`, `lost_zone_waits`, `configurations`, `files`, `steps`,
//! `lines`, `texts`; `written_files`.
//! Tests: tests/crates/command/companion/rollout.

mod config_at_stage;
mod configurations;
mod fault;
mod files;
mod lines;
mod lost_zone_waits;
mod stage;
mod steps;
mod texts;
mod written_files;

pub use configurations::configurations_at;
pub use fault::RolloutFault;
pub use files::{ConfigFile, files_at};
pub use lines::rollout_lines;
pub use stage::Stage;
pub use steps::{RolloutStep, rollout_steps};
pub use texts::{reason_of, steps_text};
pub use written_files::write_files;
