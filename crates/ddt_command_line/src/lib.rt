//! The command line of a program as tables: what it says of itself, its commands, and what each of them takes. `clap`
//! reads the words.
//!
//! Calls fail only if out of memory.
//!
//! In reading order: `argument` (an argument of a command), `declaration` (a command), `program`.
#![tactic(auto)]

mod argument;
mod declaration;
mod program;

pub use argument::{Argument, Given, Values};
pub use declaration::Declaration;
pub use program::{Program, command_line};
