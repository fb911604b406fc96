//! Of `ddt_review::faults`.

pub mod refused;
