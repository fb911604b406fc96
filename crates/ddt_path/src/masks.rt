//! The binary digits of numbers by masks, in constant time. The contracts speak of digits.

ghost use Rattle.std.specs.Prelude.{◌≡◌, ◌-◌, ◌<◌, ◌≤◌, ◌++◌, take, drop, replicate, slice_get, Some};
ghost use Rattle.ddt_path.specs.Path.{digits, are_zero};
ghost use Rattle.ddt_path.specs.Covers.{shared_len};

/// How many leading digits two numbers of 32 digits share.
pub fn shared32(a: u32, b: u32) -> u8
    ensures digits { result ≡ shared_len (digits 32 a) (digits 32 b) }
    ensures bound { result ≤ 32 }
{
    (a ^ b).leading_zeros() as u8
}

/// How many leading digits two numbers of 128 digits share.
pub fn shared128(a: u128, b: u128) -> u8
    ensures digits { result ≡ shared_len (digits 128 a) (digits 128 b) }
    ensures bound { result ≤ 128 }
{
    (a ^ b).leading_zeros() as u8
}

/// A number of 32 digits with 0 in place of each digit past the first `len`.
pub fn front32(number: u32, len: u8) -> u32
    requires { len ≤ 32 }
    ensures { digits 32 result ≡ take len (digits 32 number) ++ replicate (32 - len) 0 }
{
    if len == 0 {
        return 0;
    }
    number & (u32::MAX << (32 - len))
}

/// A number of 128 digits with 0 in place of each digit past the first `len`.
pub fn front128(number: u128, len: u8) -> u128
    requires { len ≤ 128 }
    ensures { digits 128 result ≡ take len (digits 128 number) ++ replicate (128 - len) 0 }
{
    if len == 0 {
        return 0;
    }
    number & (u128::MAX << (128 - len))
}

/// The digit of a number of 32 digits at a place, of which the first is 0.
pub fn digit32(number: u32, at: u8) -> u8
    requires { at < 32 }
    ensures { slice_get (digits 32 number) at ≡ Some result }
{
    (number >> (31 - at) & 1) as u8
}

/// The digit of a number of 128 digits at a place, of which the first is 0.
pub fn digit128(number: u128, at: u8) -> u8
    requires { at < 128 }
    ensures { slice_get (digits 128 number) at ≡ Some result }
{
    (number >> (127 - at) & 1) as u8
}

/// Whether each digit of a number of 32 digits past the first `len` is 0.
pub fn is_front32(number: u32, len: u8) -> bool
    requires { len ≤ 32 }
    ensures { result ≡ are_zero (drop len (digits 32 number)) }
{
    front32(number, len) == number
}

/// Whether each digit of a number of 128 digits past the first `len` is 0.
pub fn is_front128(number: u128, len: u8) -> bool
    requires { len ≤ 128 }
    ensures { result ≡ are_zero (drop len (digits 128 number)) }
{
    front128(number, len) == number
}
