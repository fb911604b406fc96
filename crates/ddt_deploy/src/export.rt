//! The configuration of a server group in the form of another implementation of LISP-DDT: openoverlayrouter 1.3.0
//! (OOR), which has a DDT node and a Map-Server.
//!
//! In reading order: `row`, `eid_prefix`, `nodes`, `sites`, `blocks`, `file_head`, `oor`.
//! Tests: tests/crates/command/companion/export.

mod blocks;
mod eid_prefix;
mod file_head;
mod nodes;
mod oor;
mod row;
mod sites;

pub use oor::{OorFile, oor_text};
