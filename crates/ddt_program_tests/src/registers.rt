//! Registers that are accepted.

use ddt_check::{Accepted, check};
use ddt_register::read_register;
use std::alloc::Global;

/// The register of a text; None where memory is refused, or where it is none.
pub fn accepted(alloc: Global, text: &str) -> Option<Accepted> {
    check(read_register(alloc, text.as_bytes()).ok()?).ok()
}
