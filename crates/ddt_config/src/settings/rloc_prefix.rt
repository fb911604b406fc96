//! Prefixes of RLOCs: the addresses from which ITRs may ask.

ghost use Rattle.std.specs.Prelude.{◌≡◌, ◌↔◌, Ok, IfOk, List, ℕ};
ghost use Rattle.ddt_text.specs.FirstFault.{prefix_in};
ghost use Rattle.ddt_text.specs.Grammar.{SpellsPrefix};
ghost use Rattle.ddt_config.specs.Settings.Rlocs.{is_in, block_in, SpellsRlocPrefix};

use ddt_path::{Locator, Prefix, Xeid};
use ddt_text::{TextFault, parse_prefix};
use std::alloc::{AllocError, Global};
use std::marker::Model;

/// A prefix of RLOCs: the addresses of one family that begin with the same digits, as `192.0.2.0/24` or
/// `2001:db8::/32`. Contracts see the digits of the block of instance 0, since an RLOC has no instance.
#[derive(Clone, Copy, Debug)]
pub struct RlocPrefix {
    block: Prefix,
}

impl Model for RlocPrefix {
    ghost use Rattle.std.specs.Prelude.{List, ℕ};

    ghost Value = { List ℕ };

    ghost view = { λ a. a.block };

    ghost inverse = { λ digits. record { block = digits } };
}

impl RlocPrefix {
    /// Whether the prefix covers the locator: the locator's digits begin with the prefix's.
    pub fn covers(self, locator: Locator) -> bool
        ensures { result ≡ is_in self locator }
    {
        self.block.covers_xeid(Xeid {
            iid: 0,
            address: locator,
        })
    }
}

/// Parses a prefix of RLOCs: an address, a slash and a length. Refused as `parse_prefix` refuses the same text after
/// `[0]`: 4 Address, 5 Length, 6 TailNotZero. Fails with `AllocError` only if out of memory.
#[tactic(auto, unfolding(crate::specs::Settings::Rlocs::block_in))]
pub fn parse_rloc_prefix(
    alloc: Global,
    text: &[u8],
) -> Result<Result<RlocPrefix, TextFault>, AllocError>
    ensures spelled { IfOk result (λ parsed. (p : List ℕ) → (parsed ≡ Ok p) ↔ SpellsRlocPrefix text.now p) }
    ensures fault { IfOk result (λ parsed. parsed ≡ block_in text.now) }
{
    let mut bracketed = Vec::from_slice(alloc, b"[0]")?;
    bracketed.extend_from_slice(text)?;
    Ok(parse_bracketed(&bracketed))
}

/// Parses a prefix of RLOCs from a text that begins with `[0]`.
fn parse_bracketed(text: &[u8]) -> Result<RlocPrefix, TextFault>
    ensures spelled { (p : List ℕ) → (result ≡ Ok p) ↔ SpellsPrefix text.now p }
    ensures fault { result ≡ prefix_in text.now }
{
    match parse_prefix(text) {
        Ok(block) => Ok(RlocPrefix { block }),
        Err(fault) => Err(fault),
    }
}
