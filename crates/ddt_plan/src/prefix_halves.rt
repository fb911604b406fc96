//! The two halves of a prefix: the prefixes with one more digit, or with the family after the Instance ID.

ghost use Rattle.std.specs.Prelude.{◌≡◌, ◌+◌, ◌-◌, ◌<◌, ◌≤◌, ◌++◌, ◌∷◌, [], true, length, take, drop};
ghost use Rattle.ddt_path.specs.Path.{digits, are_zero, xeid_path, is_prefix_path};
ghost use Rattle.ddt_plan.specs.Blocks.{half as half_of, bit};

use ddt_path::{Form, Locator, Prefix, Xeid};

/// The lower or the upper half of a prefix that isn't a single identifier.
pub fn half(whole: Prefix, upper: bool) -> Prefix
    requires { is_prefix_path (half_of upper whole) ≡ true }
    ensures { result ≡ half_of upper whole }
{
    Prefix::cut(inside_half(whole, upper), whole.len() + 1)
}

/// An identifier inside a half.
fn inside_half(whole: Prefix, upper: bool) -> Xeid
    requires { is_prefix_path (half_of upper whole) ≡ true }
    ensures front { take (length whole + 1) (xeid_path result) ≡ half_of upper whole }
    ensures fits { length whole + 1 ≤ length (xeid_path result) }
{
    match whole.form() {
        Form::Range { iid, len } if len < 32 => Xeid {
            iid: half32(iid, len, upper),
            address: Locator::V4(0),
        },
        Form::Range { iid, .. } => Xeid {
            iid,
            address: if upper {
                Locator::V6(0)
            } else {
                Locator::V4(0)
            },
        },
        Form::Block {
            iid,
            address: Locator::V4(number),
            len,
        } => Xeid {
            iid,
            address: Locator::V4(half32(number, len, upper)),
        },
        Form::Block {
            iid,
            address: Locator::V6(number),
            len,
        } => Xeid {
            iid,
            address: Locator::V6(half128(number, len, upper)),
        },
    }
}

/// A number of 32 digits that has 0 from a place on, with this digit at that place.
fn half32(number: u32, at: u8, upper: bool) -> u32
    requires within { at < 32 }
    requires zero { are_zero (drop at (digits 32 number)) ≡ true }
    ensures { take (at + 1) (digits 32 result) ≡ take at (digits 32 number) ++ bit upper ∷ [] }
{
    if upper {
        number + (1 << (31 - at))
    } else {
        number
    }
}

/// A number of 128 digits that has 0 from a place on, with this digit at that place.
fn half128(number: u128, at: u8, upper: bool) -> u128
    requires within { at < 128 }
    requires zero { are_zero (drop at (digits 128 number)) ≡ true }
    ensures { take (at + 1) (digits 128 result) ≡ take at (digits 128 number) ++ bit upper ∷ [] }
{
    if upper {
        number + (1 << (127 - at))
    } else {
        number
    }
}
