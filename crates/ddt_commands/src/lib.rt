//! The program's commands: from the words of a process to what it prints and how it ends, over any files, sockets,
//! clock and streams.
//!
//! In reading order: `command_line` (the words of any program), `program`, `call`, `environment` (files, sockets and a
//! clock), `commands` (the list), `over_register` (what commands over one register share), `commands/*`, `resolver`,
//! `loopback`, `sockets`, `file`, `lines`, `streams`, `usage`, `refusal`, `status`.
//! Calls that return `AllocError` fail only if out of memory. `open_file` gives the file at a path, or None where it can't
//! be opened.
//! Tests: tests/crates/command/commands.
#![tactic(auto)]

mod call;
pub mod command_line;
mod commands;
mod environment;
mod file;
mod lines;
mod loopback;
mod over_register;
mod program;
mod refusal;
mod resolver;
mod sockets;
mod status;
mod streams;
mod usage;

pub use call::read_words;
pub use commands::answer::{answer_group, answer_hex, run_answer};
pub use commands::assign::run_assign;
pub use commands::check::run_check;
pub use commands::compile::run_compile;
pub use commands::lookup::run_lookup;
pub use commands::loops::run_loop;
pub use commands::replay::{Replay, run_replay, run_script};
pub use commands::serve::run_serve;
pub use commands::show::run_show;
pub use environment::Environment;
pub use over_register::register_at;
pub use program::run;
pub use refusal::{Refusal, RegisterRefusal};
pub use resolver::RESOLVER;
pub use status::Status;
pub use streams::refuse;
pub use usage::show_usage;
