//! Of `ddt_lines`, `ddt_commands`, `ddt_deploy`, `ddt_asking`, `ddt_command_line` and `ddt_plan_commands`.

pub mod companion;
pub mod each_command;
pub mod refused;
pub mod words;
