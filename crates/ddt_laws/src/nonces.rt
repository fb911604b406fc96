//! Laws of a resolver that asks over wires with random nonces.
//!
//! In reading order: `laws`.

mod laws;

pub use laws::{
    lifted_replies_were_asked, runs_ask_once, translated_packets_are_fair,
    translated_runs_are_right,
};
