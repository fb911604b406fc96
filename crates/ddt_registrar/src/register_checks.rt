//! Checks whether a Map-Register is accepted: its key, authentication code, nonce, and number of ETRs.

ghost use Rattle.std.specs.Prelude.{◌≡◌, nat_le, length, Some, find};
ghost use Rattle.std.specs.List.{list_all, list_any};
ghost use Rattle.ddt_path.specs.Locators.{most_locators};
ghost use Rattle.ddt_path.specs.Steps.{IsReadAs};
ghost use Rattle.ddt_registrar.specs.Checks.{bears_code, nonce_of as nonce_of_message, is_above, is_fresh as is_fresh_of, has_nonce_room as has_nonce_room_of, has_room as has_room_of, checked_at};
ghost use Rattle.ddt_registrar.specs.Registration.{etr_of as etr_of_locator, etrs_in, is_of_same_xtr};
ghost use Rattle.ddt_registrar.specs.Sender.{is_same_sender};

use crate::key::{Key, Replay, key_in};
use crate::keyed_site::KeyedSite;
use crate::lists::Keyed;
use crate::refusal::Refusal;
use crate::registration::{LastNonce, Registration};
use crate::sender::Sender;
use ddt_foreign::Ranked;
use ddt_map_register::{MapRegister, RegisterRecord, RegisteredLocator};
use ddt_path::MOST_LOCATORS;

/// The priority of a locator that must not be used.
const NOT_USED: u8 = 255;
/// The most xTRs that are registered for a site.
pub(crate) const MOST_XTRS: usize = 8;
/// The most last nonces that are recorded for a site.
pub(crate) const MOST_NONCES: usize = 32;

/// The ETR of a locator, if it can be used: it has an address, its priority isn't 255, and the bit R is set.
pub(crate) fn etr_of(locator: &RegisteredLocator) -> Option<Ranked>
    ensures { result ≡ etr_of_locator locator.now }
{
    if locator.priority == NOT_USED || !locator.is_reachable() {
        return None;
    }
    match locator.address {
        Some(address) => Some(Ranked {
            priority: locator.priority,
            address,
        }),
        None => None,
    }
}

/// Whether a record has at most eight ETRs.
fn has_few_etrs(record: &RegisterRecord<'_>) -> bool
    ensures { result ≡ nat_le (length (etrs_in record.now)) most_locators }
{
    let mut count = 0;
    let mut rest = record.locators();
    while let Some(locator) = rest.next() {
        if etr_of(&locator).is_some() {
            if count == MOST_LOCATORS {
                return false;
            }
            count += 1;
        }
    }
    true
}

/// Whether the authentication code of the message is right under the secret.
fn bears(message: &MapRegister<'_>, secret: &[u8]) -> bool
    ensures { result ≡ bears_code secret.now message.now }
{
    message.is_authentic(secret)
}

/// The nonce of a message, with its key and xTR, as it is recorded.
pub(crate) fn nonce_of(message: &MapRegister<'_>) -> LastNonce
    ensures { result ≡ nonce_of_message message.now }
{
    let head = message.head();
    LastNonce {
        key_id: head.key_id,
        algorithm: head.algorithm,
        xtr: message.id(),
        nonce: head.nonce,
    }
}

/// Whether a nonce is above each one of the same xTR under the same key.
fn is_above_all(new: LastNonce, nonces: &[LastNonce]) -> bool
    ensures { result ≡ list_all (is_above new) nonces.now }
{
    nonces
        .iter()
        .all(|old| !old.is_same(&new) || old.nonce < new.nonce)
}

/// Whether a nonce is accepted under a key with this rule.
fn is_fresh(replay: Replay, new: LastNonce, nonces: &[LastNonce]) -> bool
    ensures { result ≡ is_fresh_of replay new nonces.now }
{
    match replay {
        Replay::Increasing => is_above_all(new, nonces),
        Replay::Any => true,
    }
}

/// Whether an xTR has a registration.
fn has_registered(sender: Sender, live: &[Registration]) -> bool
    ensures { result ≡ list_any (λ g. is_same_sender g.sender sender) live.now }
{
    live.iter().any(|old| old.sender.is_same(&sender))
}

/// Whether there is a nonce of the same xTR and key, which a new one replaces.
fn has_nonce(new: LastNonce, nonces: &[LastNonce]) -> bool
    ensures { result ≡ list_any (λ old. is_of_same_xtr old new) nonces.now }
{
    nonces.iter().any(|old| old.is_same(&new))
}

/// Whether there is room for a nonce under a key. Only nonces that have to increase are recorded.
fn has_nonce_room(replay: Replay, new: LastNonce, nonces: &[LastNonce]) -> bool
    ensures { result ≡ has_nonce_room_of replay new nonces.now }
{
    match replay {
        Replay::Increasing => has_nonce(new, nonces) || nonces.len() < MOST_NONCES,
        Replay::Any => true,
    }
}

/// Whether a site has room for the registration of a record under a key with this rule.
fn has_room(
    replay: Replay,
    message: &MapRegister<'_>,
    record: &RegisterRecord<'_>,
    sender: Sender,
    site: &KeyedSite,
) -> bool
    ensures { result ≡ has_room_of replay message.now record.now sender site.now }
{
    let live = site.live.as_slice();
    has_few_etrs(record)
        && (has_registered(sender, live) || live.len() < MOST_XTRS)
        && has_nonce_room(replay, nonce_of(message), site.nonces.as_slice())
}

/// Checks a record of a site. Returns the key under which it may be registered, or why it may not.
pub(crate) fn check<'k>(
    message: &MapRegister<'_>,
    record: &RegisterRecord<'_>,
    sender: Sender,
    site: &'k KeyedSite,
) -> Result<&'k Key, Refusal>
    ensures { IsReadAs (λ k. k.now) result (checked_at message.now record.now sender (Some site.now)) }
{
    let Some(key) = key_in(site.keys.as_slice(), &message.head()) else {
        return Err(Refusal::NoKey);
    };
    if !bears(message, key.secret.as_slice()) {
        return Err(Refusal::WrongCode);
    }
    if !is_fresh(key.replay, nonce_of(message), site.nonces.as_slice()) {
        return Err(Refusal::Replayed);
    }
    if !has_room(key.replay, message, record, sender, site) {
        return Err(Refusal::TooMany);
    }
    Ok(key)
}
