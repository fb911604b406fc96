//! Of `ddt_daemon_text`.

pub mod refused;
