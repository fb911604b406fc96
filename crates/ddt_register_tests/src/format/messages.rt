//! Of `ddt_wire`, `ddt_ecm` and `ddt_foreign`.

pub mod foreign;
pub mod refused;
