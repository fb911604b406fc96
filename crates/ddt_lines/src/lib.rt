//! The lines that the program prints, and how a text is written to a stream.
//!
//! In reading order: `text` (the parts of a line), `outcome`, `counts`, `referral`, `negative_reply`, `hop`, `request`
//! (a line each), `output`.
//! Tests: tests/crates/command/lines.
#![tactic(auto)]

mod counts;
mod hop;
mod negative_reply;
mod outcome;
mod output;
mod referral;
mod request;
mod text;

pub use counts::accepted_line;
pub use hop::hop_line;
pub use negative_reply::negative_reply_line;
pub use outcome::{outcome_line, push_outcome};
pub use output::print;
pub use referral::referral_line;
pub use request::request_line;
