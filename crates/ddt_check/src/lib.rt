//! The check of a register; and for an accepted register, which Map-Servers or which hole it assigns to an identifier,
//! and what an honest server answers.
//!
//! In reading order: `fault`, `accepted`, `first_fault` (with `sorted_on_stack`, `entries`, `keyed`, `sort_key_fronts`
//! and `rules` below it), `assignment` (with `lookup` and `holes` below it), `honest_answer`, `laws`.
//! Tests: tests/crates/register/check.
#![tactic(auto)]

mod accepted;
mod assignment;
mod entries;
mod fault;
mod first_fault;
mod holes;
mod honest_answer;
mod keyed;
mod laws;
mod lookup;
mod rules;
mod sort_key_fronts;
mod sorted_on_stack;

pub use accepted::{Accepted, Counts};
pub use assignment::assign;
pub use fault::{Fault, Rule};
pub use first_fault::check;
pub use honest_answer::says;
pub use laws::{
    each_identifier_has_a_zone, each_zone_has_servers, honest_servers_lead_to_the_assignment,
    negatives_hold_of_all_that_they_cover,
};
