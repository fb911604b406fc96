//! The words of a command line: which command they call, and the values of its arguments and options, by `clap`'s own
//! rule.
//!
//! In reading order: `declaration` (what a command takes), `fault`, `call` (the words against all commands),
//! `words` (a call).
//! Tests: tests/crates/command/words.

mod call;
mod declaration;
mod fault;
mod words;

pub use call::read_call;
pub use declaration::{Argument, Declaration};
pub use fault::WordsFault;
pub use words::Words;
