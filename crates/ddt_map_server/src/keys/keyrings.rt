//! The keyrings of all sites, in the order of their prefixes. In this order the sites of a key are consecutive.

ghost use Rattle.std.specs.Prelude.{◌≡◌, ◌≢◌, ◌≤◌, true, false, [], map, length, Ok, Err, IfOk, IfErr, OnOk, IsSorted};
ghost use Rattle.std.specs.List.{list_any};
ghost use Rattle.std.specs.List.Sorted.{IsPartitionedBy, IsPartitionPoint};
ghost use Rattle.std.specs.Cmp.Lexicographic.{slice_cmp};
ghost use Rattle.std.specs.Ordering.{nat_cmp, is_lt};
ghost use Rattle.ddt_path.specs.Covers.{is_same_path};
ghost use Rattle.ddt_path.specs.laws.Member.{IsIn};
ghost use Rattle.ddt_map_server.specs.Keys.KeyedSites.{is_key_of, disagrees, is_second, judged_after};
ghost use Rattle.ddt_map_server.specs.Keys.Keyrings.{Ring, ring_of, given, AreInOrder, IsRangeOf, judged_at, judged_among};
ghost use Rattle.ddt_map_server.specs.Keys.Reading.{Reads};

use crate::keys::fault::KeysFault;
use crate::keys::keyring::Keyring;
use crate::keys::site_key::SiteKey;
use ddt_path::Prefix;
use std::alloc::{AllocError, Global};
use std::ops::Range;

/// The index of the first keyring whose prefix isn't less than this one.
fn first_at(keyrings: &[Keyring], prefix: Prefix) -> usize
    requires { AreInOrder keyrings.now }
    ensures bound { result ≤ length keyrings.now }
    ensures first { IsPartitionPoint (λ r. is_lt (slice_cmp nat_cmp r.prefix prefix) ≡ true)
        (λ r. is_lt (slice_cmp nat_cmp r.prefix prefix) ≡ false) keyrings.now result }
{
    keyrings.partition_point(|keyring| keyring.prefix() < prefix)
}

/// The keys of a site that has a keyring.
pub fn keys_at(keyrings: &[Keyring], site: Prefix) -> &[SiteKey]
    requires ordered { AreInOrder keyrings.now }
    requires there { list_any (λ r. is_same_path r.prefix site) keyrings.now ≡ true }
    ensures { (r : Ring) × IsIn r keyrings.now × (r.prefix ≡ site) × (result.now ≡ r.keys) }
{
    keyrings[first_at(keyrings, site)].keys()
}

/// The number of keyrings at the front that are those of a key's sites; no keyring after them is one.
fn count_own(keyrings: &[Keyring], key: &SiteKey) -> usize
    requires { IsPartitionedBy (λ r. is_key_of r.prefix key.now) keyrings.now }
    ensures bound { result ≤ length keyrings.now }
    ensures own { IsPartitionPoint (λ r. is_key_of r.prefix key.now ≡ true)
        (λ r. is_key_of r.prefix key.now ≡ false) keyrings.now result }
{
    keyrings.partition_point(|keyring| key.is_key_of(keyring.prefix()))
}

/// The range of the keyrings of a key's sites.
fn range_of(keyrings: &[Keyring], key: &SiteKey) -> Range<usize>
    requires { AreInOrder keyrings.now }
    ensures { IsRangeOf key.now keyrings.now result.start result.«end» }
{
    let start = first_at(keyrings, key.prefix);
    start..start + count_own(&keyrings[start..], key)
}

/// Whether one of the keyrings has a key with another `falls_back` than this key.
fn disagree(own: &[Keyring], key: &SiteKey) -> bool
    ensures { result ≡ list_any (λ r. disagrees key.now r.keys) own.now }
{
    own.iter().any(|keyring| keyring.disagrees(key))
}

/// Whether one of the keyrings has a key with the Key ID and the algorithm of this key.
fn have_first(own: &[Keyring], key: &SiteKey) -> bool
    ensures { result ≡ list_any (λ r. is_second key.now r.keys) own.now }
{
    own.iter().any(|keyring| keyring.has_first(key))
}

/// Checks a key by the keyrings of its sites. Refused as 5 NoSite if there are none, as 6 Disagree, or as 7 Twice.
fn judge_own(own: &[Keyring], key: &SiteKey) -> Result<(), KeysFault>
    ensures { result ≡ judged_at key.now own.now }
{
    if own.is_empty() {
        return Err(KeysFault::NoSite(key.prefix));
    }
    if disagree(own, key) {
        return Err(KeysFault::Disagree(key.prefix));
    }
    if have_first(own, key) {
        return Err(KeysFault::Twice(key.prefix));
    }
    Ok(())
}

/// Checks a key by the keyrings of all sites and the range of those of its own sites.
fn judge(keyrings: &[Keyring], own: &Range<usize>, key: &SiteKey) -> Result<(), KeysFault>
    requires { IsRangeOf key.now keyrings.now own.now.start own.now.«end» }
    ensures { result ≡ judged_among key.now keyrings.now }
{
    judge_own(&keyrings[own.start..own.end], key)
}

/// Adds a key to the keyrings of its sites. Fails only if out of memory.
fn add(
    alloc: Global,
    keyrings: &mut [Keyring],
    own: &Range<usize>,
    key: &SiteKey,
) -> Result<(), AllocError>
    requires { IsRangeOf key.now keyrings.old own.now.start own.now.«end» }
    ensures { OnOk result (keyrings.new ≡ map (given key.now) keyrings.old) }
{
    for at in own.start..own.end {
        keyrings[at].add(alloc, key)?;
    }
    Ok(())
}

/// Checks a key, and adds it to the keyrings of its sites.
fn place(alloc: Global, keyrings: &mut [Keyring], key: &SiteKey) -> Result<(), KeysFault>
    requires { AreInOrder keyrings.old }
    ensures judged { Reads (judged_among key.now keyrings.old) result }
    ensures added { OnOk result (keyrings.new ≡ map (given key.now) keyrings.old) }
{
    let own = range_of(keyrings, key);
    judge(keyrings, &own, key)?;
    add(alloc, keyrings, &own, key)?;
    Ok(())
}

/// Keyrings of these prefixes, without keys.
fn empty(alloc: Global, prefixes: &[Prefix]) -> Result<Vec<Keyring>, AllocError>
    ensures { IfOk result (λ keyrings. keyrings.items ≡ map (ring_of []) prefixes.now) }
{
    let mut keyrings = Vec::with_capacity(alloc, prefixes.len())?;
    for prefix in prefixes {
        keyrings.push(Keyring::new(alloc, *prefix))?;
    }
    Ok(keyrings)
}

/// Keyrings of these prefixes, which are in order, each with the keys of its site. Refused by the first key with a
/// fault.
pub fn filled(
    alloc: Global,
    prefixes: &[Prefix],
    keys: &[SiteKey],
) -> Result<Vec<Keyring>, KeysFault>
    requires { IsSorted (slice_cmp nat_cmp) prefixes.now }
    ensures filled { IfOk result (λ keyrings. keyrings.items ≡ map (ring_of keys.now) prefixes.now) }
    ensures judged { IfOk result (λ keyrings. judged_after prefixes.now [] keys.now ≡ Ok tt) }
    ensures refused { IfErr result (λ fault. fault ≢ KeysFault.Memory
        → judged_after prefixes.now [] keys.now ≡ Err fault) }
{
    let mut keyrings = empty(alloc, prefixes)?;
    for key in keys {
        place(alloc, &mut keyrings, key)?;
    }
    Ok(keyrings)
}
