//! The texts of addresses (RFC 4291, section 2.2, and RFC 5952, section 4).

ghost use Rattle.std.specs.Prelude.{◌≡◌, ◌<◌, ◌^◌, ◌++◌, ◌↔◌, if◌then◌else◌, is_ok, OnOk};
ghost use Rattle.ddt_path.specs.declared.locator.Locator.{Locator};
ghost use Rattle.ddt_path.specs.Path.{address_number, address_width};
ghost use Rattle.ddt_text.specs.Grammar.{SpellsLocator};
ghost use Rattle.ddt_text.specs.FirstFault.{address_in, locator_in};
ghost use Rattle.ddt_text.specs.Written.{written_locator};
ghost use Rattle.ddt_path.specs.Reader.{AreRead, IsAny};

use crate::fault::TextFault;
use crate::quad::read_quad;
use ddt_path::Locator;
use std::alloc::AllocError;
use std::fmt;
use std::net::{Ipv4Addr, Ipv6Addr};

/// The address that the text spells, if it does. Most texts are IPv4 addresses, which are read in one pass.
pub(crate) fn read_address(text: &[u8]) -> Option<Locator>
    ensures { result ≡ address_in text.now }
{
    if let Some(address) = read_quad(text) {
        return Some(Locator::V4(address.to_bits()));
    }
    if text.contains(&b'.') {
        let address = Ipv4Addr::parse_ascii(text).ok()?;
        Some(Locator::V4(address.to_bits()))
    } else {
        let address = Ipv6Addr::parse_ascii(text).ok()?;
        Some(Locator::V6(address.to_bits()))
    }
}

fn read_locator(text: &[u8]) -> Result<Locator, TextFault>
    ensures { result ≡ locator_in text.now }
{
    if text.is_empty() {
        return Err(TextFault::Empty);
    }
    read_address(text).ok_or(TextFault::Address)
}

/// The address that the text spells: IPv4 as four numbers joined by dots; IPv6 as eight groups, or fewer around one
/// `::`, without a dotted part. Refused as 1 Empty without bytes, else as 4 Address.
pub fn parse_locator(text: &[u8]) -> Result<Locator, TextFault>
    ensures spelled { (address : Locator) → (result ≡ Ok address) ↔ SpellsLocator text.now address }
    ensures fault { result ≡ locator_in text.now }
    ensures laws { AreRead IsAny SpellsLocator locator_in }
{
    read_locator(text)
}

/// An address as it is written.
#[derive(Clone, Copy)]
pub(crate) struct LocatorText(pub(crate) Locator);

impl fmt::Display for LocatorText {
    ghost use Rattle.std.specs.Prelude.{Some};
    ghost use Rattle.ddt_text.specs.Written.{written_locator};

    ghost output = { λ text. Some (written_locator text.0) };

    #[tactic(auto, using(crate::specs::laws::Written::shown))]
    fn fmt<W: fmt::Write>(&self, f: &mut fmt::Formatter<W>) -> fmt::Result {
        match self.0 {
            Locator::V4(number) => write!(f, "{}", Ipv4Addr::from_bits(number)),
            Locator::V6(number) => write!(f, "{}", Ipv6Addr::from_bits(number).hex_groups()),
        }
    }
}

/// Appends the address: IPv4 as four numbers joined by dots; IPv6 in the form of RFC 5952, section 4, without a dotted
/// part. Fails only if out of memory, and then `text` is unchanged.
#[tactic(auto, using(crate::proofs::AgainLemmas::laws))]
pub fn write_locator(text: &mut Vec<u8>, address: Locator) -> Result<(), AllocError>
    ensures appended { text.new.items ≡ (if is_ok result then text.old.items ++ written_locator address
        else text.old.items) }
    ensures spelled { OnOk result (SpellsLocator (written_locator address) address) }
    ensures again { OnOk result (locator_in (written_locator address) ≡ Ok address) }
    // Whatever is written spells its value.
    ensures law { (a : Locator) → address_number a < 2 ^ address_width a → SpellsLocator (written_locator a) a }
{
    let written = format!(in *text.allocator(); "{}", LocatorText(address))?;
    text.extend_from_slice(written.as_bytes())
}
