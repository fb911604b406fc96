//! Of `ddt_registrar`, over the Map-Server of `map_server`.

pub mod map_server;
pub mod refused;
