//! Of `ddt_asking`.

pub mod refused;
