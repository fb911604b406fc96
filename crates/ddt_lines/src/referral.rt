//! The line of a Map-Referral (RFC 8111, section 6.4).

ghost use Rattle.std.specs.Prelude.{◌≡◌, ◌++◌, IfOk, OnOk};
ghost use Rattle.ddt_lines.specs.Lines.{ended, referral_text, spaced, whole_text};

use crate::text::{push_locator, push_nonce, push_number, push_text};
use ddt_text::write_prefix;
use ddt_wire::{Locators, Referral};
use std::alloc::{AllocError, Global};

/// `referral nonce NONCE ACTION PREFIX ttl MINUTES complete LOCATORS`, with `incomplete` where the bit is set, and a
/// line feed. Fails only if out of memory.
pub fn referral_line(alloc: Global, referral: &Referral<'_>) -> Result<Vec<u8>, AllocError>
    ensures { IfOk result (λ line. line.items ≡ ended (referral_text referral.now)) }
{
    let mut line = Vec::from_slice(alloc, b"referral nonce ")?;
    push_nonce(&mut line, referral.nonce())?;
    push_text(&mut line, " ")?;
    push_text(&mut line, referral.action().name())?;
    push_text(&mut line, " ")?;
    write_prefix(&mut line, referral.prefix())?;
    push_text(&mut line, " ttl ")?;
    push_number(&mut line, referral.ttl() as usize)?;
    push_text(&mut line, whole(referral.incomplete()))?;
    push_referral_set(&mut line, referral.locators())?;
    line.push(b'\n')?;
    Ok(line)
}

fn whole(incomplete: bool) -> &'static str
    ensures { result.now ≡ whole_text incomplete }
{
    if incomplete {
        " incomplete"
    } else {
        " complete"
    }
}

/// Appends each locator of a Map-Referral behind a blank. Fails only if out of memory.
pub(crate) fn push_referral_set(
    line: &mut Vec<u8>,
    locators: Locators<'_>,
) -> Result<(), AllocError>
    ensures { OnOk result (line.new.items ≡ line.old.items ++ spaced locators.entry) }
{
    for locator in locators {
        push_locator(line, locator)?;
    }
    Ok(())
}
