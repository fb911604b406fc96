//! The compiler: from an accepted register to one configuration for each server group.
//!
//! In reading order: `configurations`, `children`, `sites`, `sorted_zones`, `wanted`, `lists_by_key`, `locators`,
//! `laws`.
//! Tests: tests/crates/register/compile.
#![tactic(auto)]

mod children;
mod configurations;
mod laws;
mod lists_by_key;
mod locators;
mod sites;
mod sorted_zones;
mod wanted;

pub use configurations::{compile, compile_group};
pub use laws::a_compiled_configuration_answers_honestly;
pub use locators::locators_by_name;
