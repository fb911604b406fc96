//! Of `ddt_report::pictures`.

pub mod refused;
