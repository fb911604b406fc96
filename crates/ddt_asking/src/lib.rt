//! A probe that compares running servers with a register. It asks each server that the register leads to, and compares
//! the reply with the record that the register demands (RFC 8111, sections 6 and 7). Or it asks a Map-Resolver, as an
//! ITR does.
//!
//! Calls that return `AllocError` fail only if out of memory.
//!
//! In reading order: `question`, `changed_questions`, `identifiers`, `sample`, `probe_options`, `question_counts`,
//! `reply_match`, `verdict`, `await_reply`, `retries`, `prober`, `blocking_wires`, `finding_line`, `finding_counts`;
//! and for an ITR's questions `itr_questions`, `itr_verdict`, `itr_finding_line`.
//! Tests: tests/crates/command/companion/asking.
#![tactic(auto)]

mod await_reply;
mod blocking_wires;
mod finding_counts;
mod finding_lines;
mod identifiers;
mod itr_finding_lines;
mod itr_questions;
mod itr_verdict;
mod probe_options;
mod prober;
mod question;
mod question_counts;
mod questions_of_change;
mod reply_match;
mod retries;
mod sample;
mod verdict;

pub use blocking_wires::BlockingWires;
pub use finding_counts::FindingCounts;
pub use finding_lines::finding_line;
pub use identifiers::{block_identifiers, changed_identifiers};
pub use itr_finding_lines::itr_finding_line;
pub use itr_questions::{can_be_seen, itr_question};
pub use itr_verdict::verdict_of_itr_reply;
pub use probe_options::{Client, ProbeOptions};
pub use prober::Prober;
pub use question::{Question, questions_of};
pub use question_counts::QuestionCounts;
pub use questions_of_change::changed_questions;
pub use sample::sampled;
pub use verdict::{Finding, Verdict, verdict_of_referral};
