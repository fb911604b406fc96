//! Of `ddt_organisations::seam`.

pub mod refused;
pub mod registers;
