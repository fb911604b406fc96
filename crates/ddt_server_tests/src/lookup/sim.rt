//! Of `ddt_sim`.

pub mod schedules;
