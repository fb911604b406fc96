//! The ITR-RLOCs of a foreign Map-Request (RFC 9301, section 5.2), one after the other.
//!
//! Each is an AFI and what it says: an address; nothing, with AFI 0; or an LCAF, in which an address is known with type
//! 2, after an Instance ID, and with type 11, after keys.

ghost use Rattle.std.specs.Prelude.{◌≡◌, ◌≤◌, true, is_ok, [], ◌∷◌, Err, None, length, OnOk, IfOk, IfErr, IfSome};
ghost use Rattle.std.specs.Iterator.{YieldsFirst, item_count};
ghost use Rattle.ddt_path.specs.Steps.{IsReadAs};
ghost use Rattle.ddt_foreign.specs.Several.{several_at, ComesAfter};
ghost use Rattle.ddt_foreign.specs.Request.{content_at, after_instance, rloc_inside, rloc_at, known_in, rlocs_at};

use crate::entry::{SECURITY_KEY, address_of, owner};
use crate::fault::ForeignRequestFault;
use byteorder::{BigEndian, ByteOrder};
use ddt_path::Locator;
use ddt_wire::{LCAF, NO_ADDRESS, read_address};
use std::marker::Model;

/// How many bytes an LCAF has before its content.
const BEFORE_INNER: usize = 8;
/// The type of an LCAF with an Instance ID before an address.
const INSTANCE_ID: u8 = 2;
/// How many bytes an Instance ID has.
const IID_LEN: usize = 4;

/// The ITR-RLOCs whose address is known, in order, read from the datagram one by one. Contracts see the list of those
/// that are left.
#[derive(Debug, Drop)]
pub struct ItrRlocs<'a> {
    left: u8,
    bytes: &'a [u8],
}

impl<'a> Model for ItrRlocs<'a> {
    ghost use Rattle.std.specs.Prelude.{◌≡◌, true, List, is_ok};
    ghost use Rattle.ddt_path.specs.declared.locator.Locator.{Locator};
    ghost use Rattle.ddt_foreign.specs.Several.{several_at};
    ghost use Rattle.ddt_foreign.specs.Request.{rloc_at, known_in};

    ghost Value = { List Locator };

    ghost view = { λ a. known_in a.left a.bytes.now };

    ghost invariant = { λ a. is_ok (several_at rloc_at a.left a.bytes.now) ≡ true };
}

/// What is in an LCAF, and the bytes after it.
#[tactic(auto, unfolding(crate::specs::Request::content_at))]
pub(crate) fn read_content(bytes: &[u8]) -> Result<(&[u8], &[u8]), ForeignRequestFault>
    ensures exact { IsReadAs (λ x. (x.0.now, x.1.now)) result (content_at bytes.now) }
    ensures len { OnOk result (8 ≤ length bytes.now) }
{
    if bytes.len() < BEFORE_INNER {
        return Err(ForeignRequestFault::Short);
    }
    let inner_len = usize::from(BigEndian::read_u16(&bytes[6..]));
    let len = BEFORE_INNER + inner_len;
    if bytes.len() < len {
        return Err(ForeignRequestFault::Short);
    }
    let (_head, from_inner) = bytes.split_at(BEFORE_INNER);
    let (inner, _after) = from_inner.split_at(inner_len);
    let (_lcaf, rest) = bytes.split_at(len);
    Ok((inner, rest))
}

/// The address after an Instance ID.
fn of_instance(inner: &[u8]) -> Option<Locator>
    ensures { result ≡ after_instance inner.now }
{
    if inner.len() < IID_LEN {
        return None;
    }
    let (_iid, from_address) = inner.split_at(IID_LEN);
    address_of(from_address)
}

/// The address in an LCAF of this type with this content.
fn address_inside(lcaf_type: u8, inner: &[u8]) -> Option<Locator>
    ensures { result ≡ rloc_inside lcaf_type inner.now }
{
    match lcaf_type {
        SECURITY_KEY => owner(inner),
        INSTANCE_ID => of_instance(inner),
        _ => None,
    }
}

/// The ITR-RLOC at the front, whose address may be unknown, and the bytes after it.
#[tactic(auto, unfolding(crate::specs::Request::rloc_at))]
fn read_rloc(bytes: &[u8]) -> Result<(Option<Locator>, &[u8]), ForeignRequestFault>
    ensures { IsReadAs (λ x. (x.0, x.1.now)) result (rloc_at bytes.now) }
{
    if bytes.len() < 2 {
        return Err(ForeignRequestFault::Short);
    }
    let afi = BigEndian::read_u16(bytes);
    if afi == LCAF {
        let (inner, rest) = read_content(bytes)?;
        return Ok((address_inside(bytes[4], inner), rest));
    }
    if afi == NO_ADDRESS {
        let (_afi, rest) = bytes.split_at(2);
        return Ok((None, rest));
    }
    let (address, taken) = read_address(bytes).map_err(ForeignRequestFault::of_address)?;
    let (_address, rest) = bytes.split_at(taken);
    Ok((Some(address), rest))
}

/// The bytes after so many ITR-RLOCs, or the first fault of these.
fn skip(count: u8, bytes: &[u8]) -> Result<&[u8], ForeignRequestFault>
    ensures read { IfOk result (λ rest. ComesAfter rloc_at count bytes.now rest.now) }
    ensures fault { IfErr result (λ e. several_at rloc_at count bytes.now ≡ Err e) }
{
    let mut rest = bytes;
    for _ in 0..count {
        let (_rloc, after) = read_rloc(rest)?;
        rest = after;
    }
    Ok(rest)
}

/// The first known address of so many ITR-RLOCs, how many are left after it, and their bytes.
fn next_known(count: u8, bytes: &[u8]) -> Option<(Locator, u8, &[u8])>
    requires { is_ok (several_at rloc_at count bytes.now) ≡ true }
    ensures first { IfSome result (λ x. known_in count bytes.now ≡ x.0 ∷ known_in x.1 x.2.now) }
    ensures left { IfSome result (λ x. is_ok (several_at rloc_at x.1 x.2.now) ≡ true) }
    ensures none { result ≡ None → known_in count bytes.now ≡ [] }
{
    let mut left = count;
    let mut rest = bytes;
    while left > 0 {
        match read_rloc(rest) {
            Ok((rloc, after)) => {
                left -= 1;
                rest = after;
                if let Some(address) = rloc {
                    return Some((address, left, rest));
                }
            }
            Err(_fault) => unreachable!(),
        }
    }
    None
}

impl<'a> ItrRlocs<'a> {
    /// So many ITR-RLOCs from the front of the bytes, and the bytes after them.
    #[tactic(auto, unfolding(crate::specs::Request::rlocs_at))]
    pub(crate) fn read(count: u8, bytes: &'a [u8]) -> Result<(Self, &'a [u8]), ForeignRequestFault>
        ensures exact { IsReadAs (λ x. (x.0, x.1.now)) result (rlocs_at count bytes.now) }
        ensures few { IfOk result (λ x. length x.0 ≤ count) }
    {
        let rest = skip(count, bytes)?;
        Ok((ItrRlocs { left: count, bytes }, rest))
    }

    /// The same ITR-RLOCs once more.
    pub fn again(&self) -> Self
        ensures { result ≡ self.now }
    {
        ItrRlocs {
            left: self.left,
            bytes: self.bytes,
        }
    }
}

impl<'a> Iterator for ItrRlocs<'a> {
    type Item = Locator;

    ghost next_gives = { YieldsFirst (λ rlocs. rlocs) };

    ghost remaining = { item_count (λ rlocs. rlocs) };

    fn next(&mut self) -> Option<Locator> {
        let (address, left, bytes) = next_known(self.left, self.bytes)?;
        self.left = left;
        self.bytes = bytes;
        Some(address)
    }
}
