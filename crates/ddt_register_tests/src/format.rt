//! Of what is read and written.

pub mod messages;
pub mod prefixes;
