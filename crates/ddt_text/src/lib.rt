//! The texts of locators, identifiers and prefixes. A parser answers a value if and only if the text spells it
//! (specs/Grammar.antt), else the first fault from left to right (specs/FirstFault.antt). A writer appends the one text
//! that is written (specs/Written.antt), which spells the value, so that it is read again. Parsers allocate nothing.
//!
//! In reading order: `fault`, `number`, `parts`, `quad`, `address_text`, `xeid_text`, `prefix_text`.
//! Tests: tests/crates/format/prefixes/text.
#![tactic(auto)]

mod address_text;
mod fault;
mod number;
mod parts;
mod prefix_text;
mod quad;
mod xeid_text;

pub use address_text::{parse_locator, write_locator};
pub use fault::TextFault;
pub use number::{number_laws, read_number};
pub use prefix_text::{parse_prefix, write_prefix};
pub use xeid_text::{parse_xeid, write_xeid};
