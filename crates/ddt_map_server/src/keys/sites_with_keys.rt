//! The sites of a configuration that have keys, with their keys.

ghost use Rattle.std.specs.Prelude.{◌≡◌, ◌≢◌, ◌⊎◌, true, ℕ, List, map, Ok, Err, IfOk, IfErr};
ghost use Rattle.std.specs.List.{All, list_any};
ghost use Rattle.ddt_path.specs.Covers.{is_same_path};
ghost use Rattle.ddt_registrar.specs.State.{Site};
ghost use Rattle.ddt_map_server.specs.declared.keys.site_key.SiteKey.{SiteKey as AKey};
ghost use Rattle.ddt_map_server.specs.Keys.KeyedSites.{with_keys as with_keys_of, keyed as keyed_of, keyed_sites_in};
ghost use Rattle.ddt_map_server.specs.Keys.Keyrings.{ring_of, AreInOrder};

use crate::keys::fault::KeysFault;
use crate::keys::keyring::Keyring;
use crate::keys::keyrings::{filled, keys_at};
use crate::keys::site_key::{SiteKey, copied};
use crate::keys::sites::{sites_in, sorted_prefixes};
use ddt_config::{ServerConfig, SiteEntry};
use ddt_path::Listed;
use ddt_registrar::{Key, KeyedSite};
use std::alloc::{AllocError, Global};

/// Copies of the keys of a site.
fn copies(alloc: Global, keys: &[SiteKey]) -> Result<Vec<Key>, AllocError>
    ensures { IfOk result (λ copies. copies.items ≡ map (λ k. k.key) keys.now) }
{
    let mut copies = Vec::with_capacity(alloc, keys.len())?;
    for key in keys {
        copies.push(copied(alloc, &key.key)?)?;
    }
    Ok(copies)
}

/// Whether one of the keys says that the configured ETRs are used again.
fn fall_back(keys: &[SiteKey]) -> bool
    ensures { result ≡ list_any (λ k. k.falls_back) keys.now }
{
    keys.iter().any(|key| key.falls_back)
}

/// A site with its keys, for which no xTR has registered yet.
fn with_keys(alloc: Global, site: SiteEntry, keys: &[SiteKey]) -> Result<KeyedSite, AllocError>
    ensures { IfOk result (λ keyed. keyed ≡ with_keys_of site keys.now) }
{
    Ok(KeyedSite {
        prefix: site.prefix,
        keys: copies(alloc, keys)?,
        configured: site.etrs,
        falls_back: fall_back(keys),
        has_registered: false,
        live: Vec::new(alloc),
        nonces: Vec::new(alloc),
    })
}

/// The sites that have keys, by the keyrings of the prefixes of all sites.
fn keyed(
    alloc: Global,
    sites: &[SiteEntry],
    keyrings: &[Keyring],
) -> Result<Listed<KeyedSite>, AllocError>
    requires ordered { AreInOrder keyrings.now }
    requires there { All (λ s. list_any (λ r. is_same_path r.prefix s.prefix) keyrings.now ≡ true) sites.now }
    ensures { (keys : List AKey) (prefixes : List (List ℕ)) → keyrings.now ≡ map (ring_of keys) prefixes
        → IfOk result (λ keyed. keyed ≡ keyed_of keys sites.now) }
{
    let mut keyed = Vec::new(alloc);
    for site in sites {
        let keys = keys_at(keyrings, site.prefix);
        if !keys.is_empty() {
            keyed.push(with_keys(alloc, *site, keys)?)?;
        }
    }
    Ok(Listed::of(keyed))
}

/// The sites of a configuration that have keys among these, in the order of the configuration: first those of its first
/// authority. A key belongs to the site of its prefix and, if it accepts more specific ones, to each site that its
/// prefix covers. A site has its keys in their order, the ETRs that the configuration names, and no registration.
///
/// Refused, by the first key with a fault, with the key's prefix:
///
/// - 5 NoSite: it belongs to no site of the configuration. A DDT node has no sites, so there the first key is refused.
/// - 6 Disagree: an earlier key of one of its sites has another `falls_back`.
/// - 7 Twice: an earlier key of one of its sites has its Key ID and its algorithm, so that it would never be used.
/// - 8 Memory: memory ran out; it may come in place of any other.
///
/// The time grows with the number of sites and keys as sorting does, and with the number of keys of all sites together.
/// A site has at most 512 keys that were read, since there are 256 Key IDs and two algorithms.
pub fn keyed_sites(
    alloc: Global,
    config: &ServerConfig,
    keys: &[SiteKey],
) -> Result<Listed<KeyedSite>, KeysFault>
    ensures found { IfOk result (λ sites. keyed_sites_in config.now.authorities keys.now ≡ Ok sites) }
    ensures every { (sites : List Site) → keyed_sites_in config.now.authorities keys.now ≡ Ok sites
        → (result ≡ Ok sites) ⊎ (result ≡ Err KeysFault.Memory) }
    ensures refused { IfErr result (λ fault. fault ≢ KeysFault.Memory
        → keyed_sites_in config.now.authorities keys.now ≡ Err fault) }
{
    let sites = sites_in(alloc, config.authorities.as_slice())?;
    let prefixes = sorted_prefixes(alloc, &sites)?;
    let keyrings = filled(alloc, &prefixes, keys)?;
    Ok(keyed(alloc, &sites, &keyrings)?)
}
