//! HMAC (RFC 2104, section 2), and it with SHA-256 and with SHA-1.

ghost use Rattle.std.specs.Prelude.{◌≡◌, ◌≤◌, ◌++◌, length, map};
ghost use Rattle.std.specs.List.{concat};
ghost use Rattle.ddt_map_register.specs.Hmac.Hmac.{filled, block_key, xor_each, hmac as hmac_of, hmac_sha256, hmac_sha1};

use crate::hmac::hash::BlockHash;
use sha1::Sha1;
use sha2::Sha256;

/// The length of a block of either hash, in bytes.
const BLOCK: usize = 64;
/// What the key is xored with before the message.
const INNER_PAD: u8 = 0x36;
/// What the key is xored with before the inner digest.
const OUTER_PAD: u8 = 0x5C;

/// The key with zeros after it, up to a block.
fn fill(key: &[u8]) -> [u8; BLOCK]
    requires { length key.now ≤ 64 }
    ensures { result ≡ filled key.now }
{
    let mut block = [0; BLOCK];
    block[..key.len()].copy_from_slice(key);
    block
}

/// Each byte of a block xored with the pad.
fn padded(block: &[u8; BLOCK], pad: u8) -> [u8; BLOCK]
    ensures { result ≡ xor_each pad block.now }
{
    let mut out = [0; BLOCK];
    for i in 0..BLOCK {
        out[i] = block[i] ^ pad;
    }
    out
}

/// The digest of a block and of the parts after it.
fn digest_after<const N: usize, H: BlockHash<N>>(block: &[u8; BLOCK], parts: &[&[u8]]) -> [u8; N]
    ensures { result ≡ H.hash (block.now ++ concat (map (λ part. part.now) parts.now)) }
{
    let mut hasher = H::begin();
    hasher.add(block);
    for part in parts {
        hasher.add(part);
    }
    hasher.end()
}

/// The key as a block: a key that is longer than one is hashed first.
fn key_block<const N: usize, H: BlockHash<N>>(key: &[u8]) -> [u8; BLOCK]
    requires { N ≤ 64 }
    ensures { result ≡ block_key H.hash key.now }
{
    if key.len() > BLOCK {
        let mut hasher = H::begin();
        hasher.add(key);
        fill(&hasher.end())
    } else {
        fill(key)
    }
}

/// HMAC by a hash, under the key, of the message that the parts make one after the other.
fn hmac<const N: usize, H: BlockHash<N>>(key: &[u8], parts: &[&[u8]]) -> [u8; N]
    requires { N ≤ 64 }
    ensures { result ≡ hmac_of H.hash key.now (concat (map (λ part. part.now) parts.now)) }
{
    let block = key_block::<N, H>(key);
    let inner = digest_after::<N, H>(&padded(&block, INNER_PAD), parts);
    digest_after::<N, H>(&padded(&block, OUTER_PAD), &[&inner])
}

/// HMAC-SHA-256 under the key, of the message that the parts make one after the other (RFC 2104, section 2).
#[tactic(auto, unfolding(crate::specs::Hmac::Hmac::hmac_sha256))]
pub fn hmac_sha256(key: &[u8], parts: &[&[u8]]) -> [u8; 32]
    ensures { result ≡ hmac_sha256 key.now (concat (map (λ part. part.now) parts.now)) }
{
    hmac::<32, Sha256>(key, parts)
}

/// HMAC-SHA-1 under the key, of the message that the parts make one after the other (RFC 2104, section 2).
#[tactic(auto, unfolding(crate::specs::Hmac::Hmac::hmac_sha1))]
pub fn hmac_sha1(key: &[u8], parts: &[&[u8]]) -> [u8; 20]
    ensures { result ≡ hmac_sha1 key.now (concat (map (λ part. part.now) parts.now)) }
{
    hmac::<20, Sha1>(key, parts)
}
