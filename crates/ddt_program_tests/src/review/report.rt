//! Of `ddt_report`.

pub mod pages;
pub mod refused;
