//! Small texts: of roles, names, prefixes and locators.

use ddt_path::{Locator, Name, Prefix, Role};
use ddt_sockets::ip_of;
use ddt_text::{write_locator, write_prefix};
use std::alloc::{AllocError, Global};
use std::{fmt, str};

/// A message for the log or the user; an error if there is no memory for it.
pub type Message = Result<String, AllocError>;

/// The word for a role, as the key `kind` has it: `node` or `ms`.
pub fn role_text(role: Role) -> &'static str {
    match role {
        Role::Node => "node",
        Role::Ms => "ms",
    }
}

/// The name of a group as a text; empty if it isn't UTF-8.
pub fn name_text(name: &Name) -> &str {
    str::from_utf8(name.as_bytes()).unwrap_or("")
}

/// A prefix in its text form.
pub fn prefix_text(alloc: Global, prefix: Prefix) -> Message {
    let mut text = Vec::new(alloc);
    write_prefix(&mut text, prefix)?;
    string_of(alloc, &text)
}

/// Locators as IP addresses, each after a space.
#[derive(Clone, Copy)]
pub struct Addresses<'a>(pub &'a [Locator]);

impl fmt::Display for Addresses<'_> {
    fn fmt<W: fmt::Write>(&self, f: &mut fmt::Formatter<W>) -> fmt::Result {
        for locator in self.0 {
            write!(f, " {}", ip_of(*locator))?;
        }
        Ok(())
    }
}

/// Appends locators, each after a space.
pub(crate) fn push_locators(text: &mut Vec<u8>, locators: &[Locator]) -> Result<(), AllocError> {
    for locator in locators {
        text.push(b' ')?;
        write_locator(text, *locator)?;
    }
    Ok(())
}

/// The text of UTF-8 bytes; empty for other bytes.
pub(crate) fn string_of(alloc: Global, bytes: &[u8]) -> Message {
    String::from_str(alloc, str::from_utf8(bytes).unwrap_or(""))
}
