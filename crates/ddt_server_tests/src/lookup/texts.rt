//! Locators, identifiers and prefixes of texts.

use ddt_path::{Locator, Prefix, Xeid};
use ddt_text::{parse_locator, parse_prefix, parse_xeid};
use std::test::Fail;

/// The locator that a text spells.
pub fn locator(text: &str) -> Result<Locator, Fail> {
    Ok(parse_locator(text.as_bytes())?)
}

/// The identifier that a text spells.
pub fn identifier(text: &str) -> Result<Xeid, Fail> {
    Ok(parse_xeid(text.as_bytes())?)
}

/// The prefix that a text spells.
pub fn prefix(text: &str) -> Result<Prefix, Fail> {
    Ok(parse_prefix(text.as_bytes())?)
}
