//! Laws beyond the theorem on registers: with ETRs that register, over wires with random nonces, of how lookups end at a
//! Map-Resolver, and of the seals of configurations.
//!
//! In reading order: `registrations`, `nonces`, `positive_ends`, `seals`.
#![tactic(auto)]

pub mod nonces;
pub mod positive_ends;
pub mod registrations;
pub mod seals;
