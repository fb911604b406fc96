//! Decimal numbers without leading zeros.

ghost use Rattle.std.specs.Prelude.{◌≡◌, ◌≤◌, ◌<◌, ◌^◌, ◌+◌, ◌*◌, ◌&&◌, ◌||◌, ◌==◌, not, nat_le, slice_index_or, length};
ghost use Rattle.std.specs.Prelude.{ℕ, List, Some, None, decimal, IfSome, if◌then◌else◌};
ghost use Rattle.std.specs.List.{list_all};
ghost use Rattle.std.specs.Char.{is_ascii_digit, digit_value};
ghost use Rattle.std.specs.Str.Parse.{digits_value};
ghost use Rattle.ddt_text.specs.FirstFault.{number_in};

/// The number with one digit more behind it; None where the byte is no digit, or where that is above `most`.
fn with_digit(number: u64, byte: u8, most: u64) -> Option<u64>
    ensures { result ≡ (if is_ascii_digit byte && nat_le (number * 10 + digit_value byte) most
        then Some (number * 10 + digit_value byte) else None) }
{
    if !byte.is_ascii_digit() {
        return None;
    }
    let next = number.checked_mul(10)?.checked_add(u64::from(byte - b'0'))?;
    (next <= most).then_some(next)
}

/// The number of at most `most` that the digits of a text write; None where it has another byte. No digit writes 0.
fn read_digits(text: &[u8], most: u64) -> Option<u64>
    ensures { result ≡ (if list_all is_ascii_digit text.now && nat_le (digits_value 10 text.now) most
        then Some (digits_value 10 text.now) else None) }
{
    let mut number = 0;
    for byte in text {
        number = with_digit(number, *byte, most)?;
    }
    Some(number)
}

/// Whether a zero stands before other digits.
fn has_leading_zero(text: &[u8]) -> bool
    ensures { result ≡ (slice_index_or text.now 0 0 == 48 && not (length text.now == 1)) }
{
    matches!(text, [b'0', _, ..])
}

/// The number of at most `most` that the text spells: decimal digits without a sign or a leading zero. None where it
/// writes none.
pub fn read_number(text: &[u8], most: u64) -> Option<u64>
    ensures value { result ≡ number_in most text.now }
    ensures bound { IfSome result (λ number. number ≤ most) }
{
    if text.is_empty() || has_leading_zero(text) {
        return None;
    }
    read_digits(text, most)
}

/// What holds of the reading of numbers: the decimal text of a number is read as it, and what is read is its text. The
/// call does nothing.
pub fn number_laws()
    ensures read { (most number : ℕ) → most < 2 ^ 64 → number ≤ most → number_in most (decimal number) ≡ Some number }
    ensures taken { (most : ℕ) (text : List ℕ) (number : ℕ) → most < 2 ^ 64
        → number_in most text ≡ Some number → (number ≤ most) × (text ≡ decimal number) }
{}

/// The same for a number of 32 bits.
pub(crate) fn read_u32(text: &[u8], most: u32) -> Option<u32>
    ensures value { result ≡ number_in most text.now }
    ensures bound { IfSome result (λ number. number ≤ most) }
{
    match read_number(text, u64::from(most)) {
        Some(number) => Some(number as u32),
        None => None,
    }
}
