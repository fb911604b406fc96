//! Of the register, from CSV to what is compiled, and of `ddt_plan`.

pub mod check;
pub mod config;
pub mod plan;
pub mod refused;
