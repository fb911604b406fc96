//! The entries of a cache, and the zones of lookups.

pub mod refused;
