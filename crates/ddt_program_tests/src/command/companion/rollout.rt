//! Of `ddt_deploy::rollout`, `loopback` and `export`.

pub mod refused;
