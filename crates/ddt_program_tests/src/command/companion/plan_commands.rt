//! Of `ddt_plan_commands`.

pub mod files;
pub mod refused;
