//! HMAC (RFC 2104) with SHA-256 and with SHA-1, and a comparison of codes that looks at every byte.
//!
//! In reading order: `hash`, `code`, `comparison`.
//! No proof speaks of time: that a comparison takes as long for any two codes of one length is its form alone.
//! Tests: tests/crates/daemon/registrations/codes.

mod code;
mod comparison;
mod hash;

pub use code::{hmac_sha1, hmac_sha256};
pub use comparison::{is_code_cut, is_same_code};
