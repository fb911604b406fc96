//! Of `ddt_review::files`.

pub mod refused;
