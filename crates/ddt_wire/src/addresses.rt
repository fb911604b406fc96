//! Addresses one after the other, each behind so many ignored bytes: the locators of a record, and the ITR-RLOCs of a
//! Map-Request (RFC 9301, sections 5.2 and 5.4).

ghost use Rattle.std.specs.Prelude.{◌≡◌, ◌≤◌, ◌++◌, Err, length, take, All, OnOk, OnErr, IfOk, IfErr};
ghost use Rattle.std.specs.List.{flat_map};
ghost use Rattle.std.specs.Iterator.{YieldsFirst, item_count};
ghost use Rattle.ddt_path.specs.Locators.{most_locators};
ghost use Rattle.ddt_path.specs.Steps.{IsReadAs};
ghost use Rattle.ddt_wire.specs.Address.{IsAddress};
ghost use Rattle.ddt_wire.specs.Addresses.{written_behind, behind_at, addresses_at, StandsAfter};

use crate::address::{AddressFault, read_address, write_address};
use ddt_path::{Locator, LocatorSet, MOST_LOCATORS};
use std::alloc::AllocError;
use std::marker::Model;

/// Appends the addresses in order, each behind these bytes and its AFI. Fails only if out of memory, and then `bytes`
/// is unchanged.
pub fn write_addresses(
    bytes: &mut Vec<u8>,
    before: &[u8],
    addresses: &[Locator],
) -> Result<(), AllocError>
    ensures written { OnOk result (bytes.new.items
        ≡ bytes.old.items ++ flat_map (written_behind before.now) addresses.now) }
    ensures fit { OnOk result (All IsAddress addresses.now) }
    ensures unchanged { OnErr result (bytes.new.items ≡ bytes.old.items) }
{
    let len = bytes.len();
    let written = append_addresses(bytes, before, addresses);
    if written.is_err() {
        bytes.truncate(len);
    }
    written
}

/// The same, but where it fails, some of the addresses may stand in `bytes`.
fn append_addresses(
    bytes: &mut Vec<u8>,
    before: &[u8],
    addresses: &[Locator],
) -> Result<(), AllocError>
    ensures written { OnOk result (bytes.new.items
        ≡ bytes.old.items ++ flat_map (written_behind before.now) addresses.now) }
    ensures fit { OnOk result (All IsAddress addresses.now) }
    ensures kept { OnErr result (take (length bytes.old.items) bytes.new.items ≡ bytes.old.items) }
{
    for address in addresses {
        bytes.extend_from_slice(before)?;
        write_address(bytes, *address)?;
    }
    Ok(())
}

/// Addresses in order, each behind its AFI and `BEFORE` ignored bytes before that, read from the datagram one by one.
/// Contracts see the list of those that are left.
#[derive(Debug, Drop)]
pub struct Addresses<'a, const BEFORE: usize> {
    left: u8,
    bytes: &'a [u8],
}

impl<'a, const BEFORE: usize> Model for Addresses<'a, BEFORE> {
    ghost use Rattle.std.specs.Prelude.{◌≡◌, true, List, is_ok};
    ghost use Rattle.ddt_path.specs.declared.locator.Locator.{Locator};
    ghost use Rattle.ddt_wire.specs.Addresses.{addresses_at, addresses_in};

    ghost Value = { List Locator };

    ghost view = { λ a. addresses_in BEFORE a.left a.bytes.now };

    ghost invariant = { λ a. is_ok (addresses_at BEFORE a.left a.bytes.now) ≡ true };
}

/// The address at the front behind `BEFORE` bytes, and how many bytes it takes with these.
#[tactic(auto, unfolding(crate::specs::Addresses::behind_at))]
fn read_behind<const BEFORE: usize>(bytes: &[u8]) -> Result<(Locator, usize), AddressFault>
    ensures exact { result ≡ behind_at BEFORE bytes.now }
    ensures within { IfOk result (λ x. x.1 ≤ length bytes.now) }
{
    if bytes.len() < BEFORE {
        return Err(AddressFault::Short);
    }
    let (address, taken) = read_address(&bytes[BEFORE..])?;
    Ok((address, BEFORE + taken))
}

/// The bytes after so many addresses, or the first fault of these.
fn skip<const BEFORE: usize>(count: u8, bytes: &[u8]) -> Result<&[u8], AddressFault>
    ensures read { IfOk result (λ rest. StandsAfter BEFORE count bytes.now rest.now) }
    ensures fault { IfErr result (λ e. addresses_at BEFORE count bytes.now ≡ Err e) }
{
    let mut rest = bytes;
    for _ in 0..count {
        let (_address, taken) = read_behind::<BEFORE>(rest)?;
        let (_bytes, after) = rest.split_at(taken);
        rest = after;
    }
    Ok(rest)
}

impl<'a, const BEFORE: usize> Addresses<'a, BEFORE> {
    /// So many addresses from the front of the bytes, and the bytes after them. Refused by the first address that
    /// can't be read, as 1 Short where its AFI is cut, then as 2 Family, then as 1 Short where the address is cut.
    pub fn read(count: u8, bytes: &'a [u8]) -> Result<(Self, &'a [u8]), AddressFault>
        ensures { IsReadAs (λ x. (x.0, x.1.now)) result (addresses_at BEFORE count bytes.now) }
    {
        let rest = skip::<BEFORE>(count, bytes)?;
        Ok((Addresses { left: count, bytes }, rest))
    }

    /// The same addresses once more.
    pub fn again(&self) -> Self
        ensures { result ≡ self.now }
    {
        Addresses {
            left: self.left,
            bytes: self.bytes,
        }
    }

    /// The first eight of the addresses that are left.
    pub(crate) fn first_eight(mut self) -> LocatorSet
        ensures { result ≡ take most_locators self.entry }
    {
        let mut slots = [Locator::V4(0); MOST_LOCATORS];
        let mut len = 0;
        while len < MOST_LOCATORS {
            let Some(locator) = self.next() else {
                break;
            };
            slots[len] = locator;
            len += 1;
        }
        LocatorSet::of(&slots[..len]).unwrap()
    }
}

impl<'a, const BEFORE: usize> Iterator for Addresses<'a, BEFORE> {
    type Item = Locator;

    ghost next_gives = { YieldsFirst (λ addresses. addresses) };

    ghost remaining = { item_count (λ addresses. addresses) };

    fn next(&mut self) -> Option<Locator> {
        if self.left == 0 {
            return None;
        }
        match read_behind::<BEFORE>(self.bytes) {
            Ok((address, taken)) => {
                let (_bytes, after) = self.bytes.split_at(taken);
                self.left -= 1;
                self.bytes = after;
                Some(address)
            }
            Err(_fault) => unreachable!(),
        }
    }
}
