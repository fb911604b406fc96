//! A key of a site: a table of the file.

ghost use Rattle.std.specs.Prelude.{◌≡◌, IfOk};
ghost use Rattle.toml.specs.View.{table_view};
ghost use Rattle.ddt_map_server.specs.Keys.Table.{site_key_in};
ghost use Rattle.ddt_map_server.specs.Keys.KeyedSites.{is_key_of as is_key_of_site};
ghost use Rattle.ddt_map_server.specs.Keys.Reading.{Reads};

use crate::keys::fault::KeysFault;
use crate::keys::members::{accepts_in, algorithm_in, falls_back_in, id_in, prefix_in, replay_in};
use crate::keys::secret::secret_in;
use ddt_path::Prefix;
use ddt_registrar::Key;
use std::alloc::{AllocError, Global};
use toml::Table;

/// A key, and the sites that it belongs to.
#[derive(Debug, Drop)]
pub struct SiteKey {
    /// The prefix of its site.
    pub prefix: Prefix,
    /// Whether it also belongs to the sites inside that prefix.
    pub accepts_more_specifics: bool,
    /// The Key ID, the algorithm, the secret, and whether nonces have to increase.
    pub key: Key,
    /// Whether the configured ETRs of its sites are used again after the last registration is over.
    pub falls_back: bool,
}

/// A copy of a key. Fails only if out of memory.
pub(crate) fn copied(alloc: Global, key: &Key) -> Result<Key, AllocError>
    ensures { IfOk result (λ copy. copy ≡ key.now) }
{
    Ok(Key {
        id: key.id,
        algorithm: key.algorithm,
        secret: Vec::from_slice(alloc, key.secret.as_slice())?,
        replay: key.replay,
    })
}

impl SiteKey {
    /// Reads the key of a table.
    #[tactic(auto, unfolding(crate::specs::Keys::Table::site_key_in))]
    pub(crate) fn read(alloc: Global, table: &Table) -> Result<SiteKey, KeysFault>
        ensures { Reads (site_key_in (table_view table.now)) result }
    {
        let prefix = prefix_in(table)?;
        let accepts_more_specifics = accepts_in(table)?;
        let id = id_in(table)?;
        let algorithm = algorithm_in(table)?;
        let secret = secret_in(alloc, table)?;
        let replay = replay_in(table)?;
        let falls_back = falls_back_in(table)?;
        Ok(SiteKey {
            prefix,
            accepts_more_specifics,
            key: Key {
                id,
                algorithm,
                secret: secret.into_vec(),
                replay,
            },
            falls_back,
        })
    }

    /// Whether it belongs to the site of a prefix.
    pub(crate) fn is_key_of(&self, site: Prefix) -> bool
        ensures { result ≡ is_key_of_site site self.now }
    {
        if self.accepts_more_specifics {
            self.prefix.covers(site)
        } else {
            self.prefix == site
        }
    }

    /// A copy of it. Fails only if out of memory.
    pub(crate) fn copied(&self, alloc: Global) -> Result<SiteKey, AllocError>
        ensures { IfOk result (λ copy. copy ≡ self.now) }
    {
        Ok(SiteKey {
            prefix: self.prefix,
            accepts_more_specifics: self.accepts_more_specifics,
            key: copied(alloc, &self.key)?,
            falls_back: self.falls_back,
        })
    }
}
