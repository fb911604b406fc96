//! Of `ddt_path` and `ddt_text`.

pub mod refused;
