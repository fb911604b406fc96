//! Of `ddt_review::warnings`.

pub mod refused;
