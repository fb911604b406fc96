//! The command line of `ddtplan`, and its commands `blocks` and `diff`: what a register says of all identifiers, and
//! what a change of it changes, over any files and streams. Each line is written as it is found, and none is stored.
//!
//! Calls that return `AllocError` fail only if out of memory.
//!
//! In reading order: `arguments` (what each command is asked), `command_line` (the words, as clap reads them),
//! `blocks_command`, `diff_command`, `block_lines`, `change_lines` (the sinks that write), `review` (what differs),
//! with `effects`, `extent` and `referrals` below it, `summary`, `row_tally`, `heading_and_ending`, `lines`,
//! `item_lines`, `objects` and `item_objects` (a line as text and as JSON), `counts_lines`, `inputs`, `refusal`,
//! `command_error`, `exit_status`. The other commands have crates of their own.
//! Tests: tests/crates/command/companion/plan_commands.
#![tactic(auto)]

mod arguments;
mod block_lines;
mod blocks_command;
mod change_lines;
mod command_error;
mod command_line;
mod counts_lines;
mod diff_command;
mod effects;
mod exit_status;
mod extent;
mod heading_and_ending;
mod inputs;
mod item_lines;
mod item_objects;
mod lines;
mod objects;
mod referrals;
mod refusal;
mod review;
mod row_tally;
mod summary;

pub use arguments::{
    AskAsked, Asked, BlocksAsked, CompileAsked, DiffAsked, DiffOutput, ExportAsked, FaultsAsked,
    Form, LadderAsked, LoopbackAsked, PairAsked, ReportAsked, RolloutAsked, SeamAsked, StepAsked,
    TreeAsked, WarnAsked, read_asked,
};
pub use blocks_command::run_blocks;
pub use diff_command::run_diff;
pub use exit_status::ExitStatus;
pub use inputs::register_of;
pub use refusal::PlanRefusal;
