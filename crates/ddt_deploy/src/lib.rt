//! From an accepted register to running servers: all configurations in a folder, the steps of a change, a register for
//! one machine, and the form of another implementation.
//!
//! Calls that return `AllocError` fail only if out of memory.
//!
//! In reading order: `folders`, `rollout` above it; `loopback`; `export`.
//! Tests: tests/crates/command/companion/folder, rollout, loopback and export.
#![tactic(auto)]

pub mod export;
pub mod folders;
pub mod loopback;
pub mod rollout;
