//! Of `ddt_deploy::folders`.

pub mod refused;
pub mod registers;
