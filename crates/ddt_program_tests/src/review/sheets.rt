//! Of `ddt_review::sheets`.

pub mod refused;
