//! Of the daemon's crates.

pub mod refused;
pub mod registrations;
pub mod texts;
