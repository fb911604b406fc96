//! Of `ddt_map_server`.

pub mod refused;
