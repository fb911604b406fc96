//! The keys of a site, which it shares with its ETRs.

ghost use Rattle.std.specs.Prelude.{◌≡◌};
ghost use Rattle.std.specs.Option.{option_map};
ghost use Rattle.ddt_path.specs.Covers.{is_same_path};
ghost use Rattle.ddt_registrar.specs.Carried.{is_same_replay, is_same_key, is_still_key, is_still_under as is_still_under_of, is_of_key as is_of_key_of};
ghost use Rattle.ddt_registrar.specs.Checks.{is_increasing, is_remembered as is_remembered_under, key_named, key_of};

use crate::registration::{LastNonce, Registration};
use ddt_map_register::RegisterHead;
use std::marker::Model;

/// The rule for the nonces under a key: whether each has to be above the last one (RFC 9301, section 5.6).
#[derive(Clone, Copy, Debug, PartialEq, Eq)]
pub enum Replay {
    /// A nonce that isn't above the last one of its xTR is refused.
    Increasing,
    /// Any nonce is accepted, for implementations whose nonces are random. Replays aren't detected.
    Any,
}

/// A secret under which the ETRs of a site register.
#[derive(Debug, Drop)]
pub struct Key {
    /// The Key ID.
    pub id: u8,
    /// The Algorithm ID: `SHA1_96` or `SHA256_128`. Under any other no message is authentic.
    pub algorithm: u8,
    pub secret: Vec<u8>,
    pub replay: Replay,
}

impl Model for Key {
    ghost use Rattle.ddt_registrar.specs.State.{Key as AKey};

    ghost Value = { AKey };

    ghost view = { λ k. record { id = k.id; algorithm = k.algorithm; secret = k.secret.items; replay = k.replay } };
}

impl Replay {
    /// Whether nonces have to increase.
    fn is_increasing(&self) -> bool
        ensures { result ≡ is_increasing self.now }
    {
        match self {
            Replay::Increasing => true,
            Replay::Any => false,
        }
    }

    /// Whether two rules are equal.
    fn is_same(&self, other: &Replay) -> bool
        ensures { result ≡ is_same_replay self.now other.now }
    {
        match self {
            Replay::Increasing => other.is_increasing(),
            Replay::Any => !other.is_increasing(),
        }
    }
}

/// Whether two secrets are equal.
fn is_same_secret(one: &[u8], other: &[u8]) -> bool
    ensures { result ≡ is_same_path one.now other.now }
{
    one == other
}

impl Key {
    /// Whether two keys are equal, with their secrets.
    fn is_same(&self, other: &Key) -> bool
        ensures { result ≡ is_same_key self.now other.now }
    {
        self.id == other.id
            && self.algorithm == other.algorithm
            && self.replay.is_same(&other.replay)
            && is_same_secret(self.secret.as_slice(), other.secret.as_slice())
    }
}

/// The first key with a Key ID and an Algorithm ID.
pub(crate) fn named(keys: &[Key], id: u8, algorithm: u8) -> Option<&Key>
    ensures { option_map (λ k. k.now) result ≡ key_named id algorithm keys.now }
{
    keys.iter()
        .find(|key| key.id == id && key.algorithm == algorithm)
}

/// The key that a message names: the first with its Key ID and its Algorithm ID.
pub(crate) fn key_in<'k>(keys: &'k [Key], head: &RegisterHead) -> Option<&'k Key>
    ensures { option_map (λ k. k.now) result ≡ key_of head.now keys.now }
{
    named(keys, head.key_id, head.algorithm)
}

/// Whether the nonce of a message is recorded: whether the nonces of its key have to increase.
pub(crate) fn is_remembered(keys: &[Key], head: &RegisterHead) -> bool
    ensures { result ≡ is_remembered_under head.now keys.now }
{
    match key_in(keys, head) {
        Some(key) => key.replay.is_increasing(),
        None => false,
    }
}

/// Whether there is a key with the Key ID and the Algorithm ID of a nonce.
pub(crate) fn is_of_key(keys: &[Key], nonce: &LastNonce) -> bool
    ensures { result ≡ is_of_key_of keys.now nonce.now }
{
    named(keys, nonce.key_id, nonce.algorithm).is_some()
}

/// Whether the key with this one's Key ID and Algorithm ID is equal to it.
fn is_still_among(key: &Key, keys: &[Key]) -> bool
    ensures { result ≡ is_still_key keys.now key.now }
{
    match named(keys, key.id, key.algorithm) {
        Some(same) => key.is_same(same),
        None => false,
    }
}

/// Whether a registration was made under one of the keys `before` that is also among `keys`. The key is the one with
/// the registration's Key ID and Algorithm ID.
pub(crate) fn is_still_under(before: &[Key], keys: &[Key], registration: &Registration) -> bool
    ensures { result ≡ is_still_under_of before.now keys.now registration.now }
{
    match named(before, registration.key_id, registration.algorithm) {
        Some(key) => is_still_among(key, keys),
        None => false,
    }
}
