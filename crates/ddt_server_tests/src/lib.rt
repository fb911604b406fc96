//! The proved tests of servers, caches, resolvers and lookups: the modules `refused`, which `.ci/memory` runs with each
//! growth of memory refused, and callers of laws (`server::callers`).
#![tactic(auto)]

#[cfg(test)]
pub mod comparison;
#[cfg(test)]
pub mod lookup;
#[cfg(test)]
pub mod resolver;
#[cfg(test)]
pub mod server;
