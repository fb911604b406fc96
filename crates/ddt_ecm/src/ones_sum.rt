//! The Internet checksum (RFC 1071).

ghost use Rattle.std.specs.Prelude.{◌≡◌, ◌<◌, ◌^◌, length};
ghost use Rattle.ddt_ecm.specs.Checksum.{ones_sum};
ghost use Rattle.ddt_ecm.specs.laws.Sum.{IsFolded};

/// The sum over bytes whose checksum is in place and right.
pub(crate) const VALID: u16 = 0xffff;
/// Words of 16 bits are below this.
const WORD_LIMIT: u64 = 1 << 16;

/// The one's complement sum of words, from their plain sum: each carry is added at the lowest bit.
fn fold(sum: u64) -> u16
    requires { sum < 2 ^ 32 }
    ensures { IsFolded result sum }
{
    // The carries may carry once more.
    let once = sum / WORD_LIMIT + sum % WORD_LIMIT;
    (once / WORD_LIMIT + once % WORD_LIMIT) as u16
}

/// The one's complement sum of a sum and the 16-bit words of the bytes; an odd last byte has a zero byte behind it.
/// The words of a datagram are few enough to add them first and to fold their sum once.
pub(crate) fn sum(start: u16, bytes: &[u8]) -> u16
    requires { length bytes.now < 2 ^ 16 }
    ensures { result ≡ ones_sum start bytes.now }
{
    let mut sum = u64::from(start);
    let mut rest = bytes;
    while rest.len() >= 2 {
        let (_word, after) = rest.split_at(2);
        sum += u64::from(rest[0]) * 256 + u64::from(rest[1]);
        rest = after;
    }
    if rest.is_empty() {
        return fold(sum);
    }
    fold(sum + u64::from(rest[0]) * 256)
}
