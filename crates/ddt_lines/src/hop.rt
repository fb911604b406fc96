//! The line of one hop of a lookup: the server that was asked, and what its Map-Referral says (RFC 8111, section 6.4).

ghost use Rattle.std.specs.Prelude.{◌≡◌, IfOk};
ghost use Rattle.ddt_lines.specs.Lines.{ended, hop_text};

use crate::referral::push_referral_set;
use crate::text::{push_number, push_text};
use ddt_path::Locator;
use ddt_text::{write_locator, write_prefix};
use ddt_wire::Referral;
use std::alloc::{AllocError, Global};

/// `TO ACTION PREFIX MINUTES LOCATORS`, and a line feed. Fails only if out of memory.
pub fn hop_line(alloc: Global, to: Locator, referral: &Referral<'_>) -> Result<Vec<u8>, AllocError>
    ensures { IfOk result (λ line. line.items ≡ ended (hop_text to referral.now)) }
{
    let mut line = Vec::new(alloc);
    write_locator(&mut line, to)?;
    push_text(&mut line, " ")?;
    push_text(&mut line, referral.action().name())?;
    push_text(&mut line, " ")?;
    write_prefix(&mut line, referral.prefix())?;
    push_text(&mut line, " ")?;
    push_number(&mut line, referral.ttl() as usize)?;
    push_referral_set(&mut line, referral.locators())?;
    line.push(b'\n')?;
    Ok(line)
}
