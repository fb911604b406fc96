//! The texts of IPv4 addresses, read in one pass.

ghost use Rattle.std.specs.Prelude.{◌≡◌, ◌≤◌, ◌<◌, length, IfSome, option_copied};
ghost use Rattle.std.specs.Net.Addr.{ipv4_octets};
ghost use Rattle.std.specs.Net.Grammar.{IsIpv4Text};
ghost use Rattle.std.specs.Net.Reader as Reader;

use std::net::Ipv4Addr;

/// What follows this byte at the front.
#[inline(always)]
fn read_byte(text: &[u8], byte: u8) -> Option<&[u8]>
    ensures { option_copied result ≡ Reader.read_byte byte text.now }
{
    match text {
        [first, rest @ ..] if *first == byte => Some(rest),
        _ => None,
    }
}

/// The number of the digits at the front, and how many they are, if there is one and it is at most 255.
#[inline(always)]
fn read_number(text: &[u8]) -> Option<(u32, usize)>
    ensures value { result ≡ Reader.read_number 10 255 text.now }
    ensures fits { IfSome result (λ n. (n.0 ≤ 255) × (0 < n.1) × (n.1 ≤ length text.now)) }
{
    let mut value = 0u32;
    let mut len = 0;
    for byte in text {
        let Some(digit) = char::from(*byte).to_digit(10) else {
            break;
        };
        let next = value * 10 + digit;
        if next > 255 {
            return None;
        }
        value = next;
        len += 1;
    }
    if len == 0 { None } else { Some((value, len)) }
}

/// A number of at most 255 without a leading zero, and what follows it.
#[inline(always)]
fn read_octet(text: &[u8]) -> Option<(u8, &[u8])>
    ensures { Reader.read_view (λ n. n) result ≡ Reader.read_octet text.now }
{
    let (value, len) = read_number(text)?;
    if len > 1 && text[0] == b'0' {
        return None;
    }
    Some((value as u8, &text[len..]))
}

/// Four such numbers joined by dots, and what follows them.
fn read_dotted(text: &[u8]) -> Option<(Ipv4Addr, &[u8])>
    ensures { Reader.read_view ipv4_octets result ≡ Reader.read_ipv4 text.now }
{
    let (first, text) = read_octet(text)?;
    let (second, text) = read_octet(read_byte(text, b'.')?)?;
    let (third, text) = read_octet(read_byte(text, b'.')?)?;
    let (fourth, text) = read_octet(read_byte(text, b'.')?)?;
    Some((Ipv4Addr::new(first, second, third, fourth), text))
}

/// The IPv4 address that the text spells. None tells nothing of the text: then `read_address` looks at it as a whole.
pub(crate) fn read_quad(text: &[u8]) -> Option<Ipv4Addr>
    ensures { IfSome result (IsIpv4Text text.now) }
{
    match read_dotted(text) {
        Some((address, [])) => Some(address),
        _ => None,
    }
}
