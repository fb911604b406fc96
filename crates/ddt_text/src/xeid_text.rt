//! The texts of identifiers: `[iid]address`.

ghost use Rattle.std.specs.Prelude.{◌≡◌, ◌<◌, ◌^◌, ◌++◌, ◌↔◌, if◌then◌else◌, is_ok, OnOk};
ghost use Rattle.ddt_path.specs.declared.xeid.Xeid.{Xeid};
ghost use Rattle.ddt_path.specs.Path.{address_number, address_width};
ghost use Rattle.ddt_text.specs.Grammar.{SpellsXeid};
ghost use Rattle.ddt_text.specs.FirstFault.{xeid_in};
ghost use Rattle.ddt_text.specs.Written.{written_xeid};
ghost use Rattle.ddt_path.specs.Reader.{AreRead, IsAny};

use crate::address_text::{LocatorText, read_address};
use crate::fault::TextFault;
use crate::number::read_u32;
use crate::parts::{cut, split_brackets};
use ddt_path::Xeid;
use std::alloc::AllocError;

fn read_xeid(text: &[u8]) -> Result<Xeid, TextFault>
    ensures { result ≡ xeid_in text.now }
{
    let (inner, rest) = split_brackets(text)?;
    let iid = read_u32(inner, u32::MAX).ok_or(TextFault::Instance)?;
    let (address, rest) = cut(rest, b'/');
    let address = read_address(address).ok_or(TextFault::Address)?;
    match rest {
        [] => Ok(Xeid { iid, address }),
        _ => Err(TextFault::Trailing),
    }
}

/// The identifier that the text spells. Refused, in this order, as 1 Empty, 2 Bracket, 3 Instance, 4 Address where
/// what stands up to the next `/` is no address, and 7 Trailing where a `/` follows it.
pub fn parse_xeid(text: &[u8]) -> Result<Xeid, TextFault>
    ensures spelled { (x : Xeid) → (result ≡ Ok x) ↔ SpellsXeid text.now x }
    ensures fault { result ≡ xeid_in text.now }
    ensures laws { AreRead IsAny SpellsXeid xeid_in }
{
    read_xeid(text)
}

/// Appends the identifier as `[iid]address`. Fails only if out of memory, and then `text` is unchanged.
#[tactic(auto, using(crate::proofs::AgainLemmas::laws))]
pub fn write_xeid(text: &mut Vec<u8>, x: Xeid) -> Result<(), AllocError>
    ensures appended { text.new.items ≡ (if is_ok result then text.old.items ++ written_xeid x else text.old.items) }
    ensures spelled { OnOk result (SpellsXeid (written_xeid x) x) }
    ensures again { OnOk result (xeid_in (written_xeid x) ≡ Ok x) }
    // Whatever is written spells its value.
    ensures law { (y : Xeid) → y.iid < 2 ^ 32 → address_number y.address < 2 ^ address_width y.address
        → SpellsXeid (written_xeid y) y }
{
    let written = format!(in *text.allocator(); "[{}]{}", x.iid, LocatorText(x.address))?;
    text.extend_from_slice(written.as_bytes())
}
