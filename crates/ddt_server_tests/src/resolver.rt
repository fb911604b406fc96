//! Of `ddt_cache` and `ddt_resolver`.

pub mod calls;
pub mod entries;
pub mod refused;
