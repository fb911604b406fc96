//! The proved tests of registers and messages: the modules `refused`, which `.ci/memory` runs with each growth of memory
//! refused; plain bodies of which it is proved what they compute, and what definitions give of worked registers
//! (`register`). `ddt_server_tests` and `ddt_program_tests` have those of servers and resolvers, and of what programs
//! call: there are three crates, since a large one takes long alone.
//!
//! All other tests are in `tests/crates`. They are run and not proved, and use `comparison` and the worked values of
//! these three.
#![tactic(auto)]

#[cfg(test)]
pub mod comparison;
#[cfg(test)]
pub mod format;
#[cfg(test)]
pub mod register;
#[cfg(test)]
pub mod registers;
