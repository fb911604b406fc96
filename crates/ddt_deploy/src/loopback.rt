//! A register for one machine: its servers have addresses of 127.0.0.0/8, so that `ddt loop` and `ddt serve` can run
//! it. And the CSV text of a register, which reads back as the same register.
//!
//! In reading order: `address`, `moved_register`, `table`; `fields`, `csv_text`.
//! Tests: tests/crates/command/companion/loopback.

mod address;
mod csv_text;
mod fields;
mod moved_register;
mod table;

pub use address::RESOLVER;
pub use csv_text::register_text;
pub use moved_register::to_loopback;
pub use table::moves_text;
