//! Many organisations, each of which runs its servers from its own register: which organisation's register is in charge
//! of an identifier, and that following referrals from the root ends in what that register assigns (RFC 8111, sections
//! 4 and 7.3).
//!
//! In reading order: `seam`, where the registers of two meet; `organisation`, `run_by_organisation`, `delegations`,
//! `organisations_by_group`, `faults`, `seam_pairs`, `organisation_in_charge`, `laws`.
//! Tests: tests/crates/review/organisations and seam.
#![tactic(auto)]

mod delegations;
mod faults;
mod laws;
mod organisation;
mod organisation_in_charge;
mod organisations_by_group;
mod run_by_organisation;
pub mod seam;
mod seam_pairs;

pub use faults::{TreeFault, tree_faults};
pub use laws::{someone_is_in_charge, walks_end_in_charge};
pub use organisation::Organisation;
pub use organisation_in_charge::in_charge;
pub use seam_pairs::seams;
