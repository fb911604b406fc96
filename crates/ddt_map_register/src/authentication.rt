//! Authentication data: codes of a message in parts, by Algorithm ID (RFC 9301, section 12.5).

ghost use Rattle.std.specs.Prelude.{◌≡◌, ◌≤◌, ◌++◌, replicate};
ghost use Rattle.ddt_map_register.specs.Hmac.Hmac.{hmac_sha256 as hmac_sha256_of, hmac_sha1 as hmac_sha1_of};
ghost use Rattle.ddt_map_register.specs.Authentic.{is_known as is_known_length};

use crate::hmac::{hmac_sha1, hmac_sha256};

/// The Algorithm ID of HMAC-SHA-1-96, with codes of 12 bytes, or of all 20, as some implementations send them.
pub const SHA1_96: u8 = 1;
/// The Algorithm ID of HMAC-SHA-256-128, with codes of 16 bytes.
pub const SHA256_128: u8 = 2;
/// Zeros in place of the longest code.
const ZEROS: [u8; 20] = [0; 20];

/// Whether the algorithm is known and has codes of this length.
pub(crate) fn is_known(algorithm: u8, len: u16) -> bool
    ensures { result ≡ is_known_length algorithm len }
{
    match algorithm {
        SHA256_128 => len == 16,
        SHA1_96 => len == 12 || len == 20,
        _ => false,
    }
}

/// Zeros in place of a code.
pub(crate) fn zeros(len: usize) -> &'static [u8]
    requires { len ≤ 20 }
    ensures { result.now ≡ replicate len 0 }
{
    &ZEROS[..len]
}

// The parts of a message have one lifetime, so that they can be in one array.

/// HMAC-SHA-256 of three parts.
pub(crate) fn sha256_code<'a>(
    secret: &[u8],
    before: &'a [u8],
    zeros: &'a [u8],
    after: &'a [u8],
) -> [u8; 32]
    ensures { result ≡ hmac_sha256_of secret.now (before.now ++ zeros.now ++ after.now) }
{
    hmac_sha256(secret, &[before, zeros, after])
}

/// HMAC-SHA-1 of three parts.
pub(crate) fn sha1_code<'a>(
    secret: &[u8],
    before: &'a [u8],
    zeros: &'a [u8],
    after: &'a [u8],
) -> [u8; 20]
    ensures { result ≡ hmac_sha1_of secret.now (before.now ++ zeros.now ++ after.now) }
{
    hmac_sha1(secret, &[before, zeros, after])
}
