//! The keys of one prefix.

ghost use Rattle.std.specs.Prelude.{◌≡◌, OnOk, []};
ghost use Rattle.ddt_map_server.specs.Keys.KeyedSites.{disagrees as disagrees_with, is_second as is_second_to};
ghost use Rattle.ddt_map_server.specs.Keys.Keyrings.{ring_of, with_key};

use crate::keys::site_key::SiteKey;
use ddt_path::Prefix;
use std::alloc::{AllocError, Global};
use std::marker::Model;

/// The prefix of a site, with the site's keys in the order of the file.
#[derive(Debug, Drop)]
pub struct Keyring {
    prefix: Prefix,
    keys: Vec<SiteKey>,
}

impl Model for Keyring {
    ghost use Rattle.ddt_map_server.specs.Keys.Keyrings.{Ring};

    ghost Value = { Ring };

    ghost view = { λ r. record { prefix = r.prefix; keys = r.keys.items } };
}

impl Keyring {
    /// A keyring without keys.
    pub fn new(alloc: Global, prefix: Prefix) -> Keyring
        ensures { result ≡ ring_of [] prefix }
    {
        Keyring {
            prefix,
            keys: Vec::new(alloc),
        }
    }

    /// The prefix of the site.
    pub fn prefix(&self) -> Prefix
        ensures { result ≡ self.now.prefix }
    {
        self.prefix
    }

    /// The keys of the site.
    pub fn keys(&self) -> &[SiteKey]
        ensures { result.now ≡ self.now.keys }
    {
        self.keys.as_slice()
    }

    /// Whether one of the site's keys has another `falls_back` than this key.
    pub fn disagrees(&self, key: &SiteKey) -> bool
        ensures { result ≡ disagrees_with key.now self.now.keys }
    {
        self.keys
            .iter()
            .any(|other| other.falls_back != key.falls_back)
    }

    /// Whether one of the site's keys has the Key ID and the algorithm of this key.
    pub fn has_first(&self, key: &SiteKey) -> bool
        ensures { result ≡ is_second_to key.now self.now.keys }
    {
        self.keys.iter().any(|other| other.key.id == key.key.id
            && other.key.algorithm == key.key.algorithm)
    }

    /// Adds a copy of a key as the last one. Fails only if out of memory.
    pub fn add(&mut self, alloc: Global, key: &SiteKey) -> Result<(), AllocError>
        ensures { OnOk result (self.new ≡ with_key key.now self.old) }
    {
        self.keys.push(key.copied(alloc)?)?;
        Ok(())
    }
}
