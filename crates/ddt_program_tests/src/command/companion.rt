//! Of what rolls a register out.

pub mod asking;
pub mod folder;
pub mod plan_commands;
pub mod rollout;
