//! Of `ddt_plan`; `slow` has the plain bodies of blocks.

pub mod refused;
pub mod slow;
