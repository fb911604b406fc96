//! Laws of the seal of a configuration: a text that nobody touched is never refused for its seal.
//!
//! In reading order: `laws`.

mod laws;

pub use laws::{sealed_texts_are_taken, seals_are_one};
