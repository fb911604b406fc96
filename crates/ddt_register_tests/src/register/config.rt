//! Of `ddt_config`.

pub mod refused;
