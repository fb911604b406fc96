//! A locator, and the address part of an identifier: an IPv4 or an IPv6 address (an RLOC of RFC 9300, section 3).

ghost use Rattle.std.specs.Prelude.{◌≡◌};
ghost use Rattle.ddt_path.specs.Locators.{are_distinct as are_distinct_of};

use crate::masks::{
    digit32, digit128, front32, front128, is_front32, is_front128, shared32, shared128,
};

/// An IPv4 or IPv6 address as a number, most significant digit first.
#[derive(Clone, Copy, Debug, PartialEq, Eq, PartialOrd, Ord, Hash)]
pub enum Locator {
    /// 32 digits.
    V4(u32),
    /// 128 digits.
    V6(u128),
}

impl Locator {
    ghost use Rattle.std.specs.Prelude.{◌≡◌, ◌≤◌, ◌<◌, ◌-◌, ◌^◌, ◌++◌, take, drop, replicate, length, slice_get, Some};
    ghost use Rattle.ddt_path.specs.Path.{address_width, address_number, address_digits, family, address_path, are_zero};
    ghost use Rattle.ddt_path.specs.Covers.{shared_len};

    /// How many digits an address of this family has: 32 or 128.
    pub fn width(self) -> u8
        ensures width { result ≡ address_width self }
        ensures number { address_number self < 2 ^ result }
    {
        match self {
            Locator::V4(_number) => 32,
            Locator::V6(_number) => 128,
        }
    }

    /// How many leading symbols the address parts of two paths share, the family symbol among them.
    pub(crate) fn shared(self, other: Locator) -> u8
        ensures digits { result ≡ shared_len (address_path self) (address_path other) }
        ensures bound { result ≤ 129 }
    {
        match (self, other) {
            (Locator::V4(a), Locator::V4(b)) => 1 + shared32(a, b),
            (Locator::V6(a), Locator::V6(b)) => 1 + shared128(a, b),
            _ => 0,
        }
    }

    /// The symbol of the address part of a path at a place: the family symbol, 4 or 6, at 0, and behind it the digits.
    pub(crate) fn symbol(self, at: u8) -> u8
        requires { at < length (address_path self) }
        ensures { slice_get (address_path self) at ≡ Some result }
    {
        match self {
            Locator::V4(_number) if at == 0 => 4,
            Locator::V4(number) => digit32(number, at - 1),
            Locator::V6(_number) if at == 0 => 6,
            Locator::V6(number) => digit128(number, at - 1),
        }
    }

    /// The address with 0 in place of each digit past the first `len`.
    pub(crate) fn front(self, len: u8) -> Locator
        requires { len ≤ address_width self }
        ensures family { family result ≡ family self }
        ensures width { address_width result ≡ address_width self }
        ensures number { address_number result < 2 ^ address_width self }
        ensures digits { address_digits result ≡ take len (address_digits self) ++ replicate (address_width self - len)
            0 }
    {
        match self {
            Locator::V4(a) => Locator::V4(front32(a, len)),
            Locator::V6(a) => Locator::V6(front128(a, len)),
        }
    }

    /// Whether each digit of the address past the first `len` is 0.
    pub(crate) fn is_front(self, len: u8) -> bool
        requires { len ≤ address_width self }
        ensures { result ≡ are_zero (drop len (address_digits self)) }
    {
        match self {
            Locator::V4(a) => is_front32(a, len),
            Locator::V6(a) => is_front128(a, len),
        }
    }
}

/// Whether no locator of the list stands twice.
pub fn are_distinct(locators: &[Locator]) -> bool
    ensures { result ≡ are_distinct_of locators.now }
{
    let mut rest = locators;
    while let [first, others @ ..] = rest {
        if others.contains(first) {
            return false;
        }
        rest = others;
    }
    true
}
