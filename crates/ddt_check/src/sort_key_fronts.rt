//! The first 64 bits of the sort keys of prefixes and names, which decide most comparisons: the one with the lower
//! number sorts first.

ghost use Rattle.std.specs.Prelude.{◌≡◌, slice_index_or};
ghost use Rattle.ddt_check.specs.Fronts.{prefix_front as prefix_front_of, address_front as address_front_of};
ghost use Rattle.ddt_check.specs.Fronts.{name_front as name_front_of};

use ddt_path::{Form, Locator, Name, Prefix};

/// The Instance ID in the first 32 of 64 bits. For a block of addresses, the family and the first 30 bits of the
/// address follow.
pub fn prefix_front(prefix: Prefix) -> u64
    ensures { result ≡ prefix_front_of prefix }
{
    match prefix.form() {
        Form::Range { iid, .. } => u64::from(iid) << 32,
        Form::Block { iid, address, .. } => {
            (u64::from(iid) << 32) + u64::from(address_front(address))
        }
    }
}

/// The family as 1 or 2, and the first 30 bits of the address.
fn address_front(address: Locator) -> u32
    ensures { result ≡ address_front_of address }
{
    match address {
        Locator::V4(number) => (1 << 30) + (number >> 2),
        Locator::V6(number) => (2 << 30) + (number >> 98) as u32,
    }
}

/// The first eight bytes of a name; a shorter name is padded with zeros.
pub fn name_front(name: &Name) -> u64
    ensures { result ≡ name_front_of name.now }
{
    let bytes = name.as_bytes();
    let mut front = 0;
    for place in 0..8 {
        front = front * 256 + u64::from(byte_at(bytes, place));
    }
    front
}

/// The byte at an index; 0 after the end.
fn byte_at(bytes: &[u8], place: usize) -> u8
    ensures { result ≡ slice_index_or bytes.now place 0 }
{
    if place < bytes.len() { bytes[place] } else { 0 }
}
