//! Messages of other implementations.

pub mod refused;
