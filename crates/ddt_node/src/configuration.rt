//! Reads a server's configuration from bytes, and adopts a new one.

ghost use Rattle.std.specs.Prelude.{◌≡◌, ◌≢◌, ◌<◌, IfOk, IfErr, OnOk, OnErr};
ghost use Rattle.std.specs.Str.{IsUtf8};
ghost use Rattle.ddt_trie.specs.PrefixMap.{most_entries};
ghost use Rattle.ddt_config.specs.declared.fault.ConfigFault.TheVariants.{Toml as IsToml, Shape as IsShape, Memory as IsMemory};
ghost use Rattle.ddt_config.specs.Entries.{entry_count};
ghost use Rattle.ddt_config.specs.Table.{outline};
ghost use Rattle.ddt_node.specs.Spelled.{HasRoom, IsServedConfig, IsConfigFault};

use crate::place_index::has_room_for;
use crate::server::Server;
use ddt_config::{ConfigFault, ServerConfig, from_toml};
use ddt_trie::PrefixMap;
use std::alloc::Global;
use std::str;

/// Reads a configuration from bytes: a text in TOML, as `from_toml` reads it. A server can be built of it.
///
/// Refused, by the first fault: 1 Toml, also if the bytes are no UTF-8; 2 Field; 3 Value; 4 Shape, also if a server has
/// no room for it; 5 Memory, which may come in place of any other.
pub fn config_in(alloc: Global, bytes: &[u8]) -> Result<ServerConfig, ConfigFault>
    ensures spelled { IfOk result (λ c. IsServedConfig bytes.now (outline c)) }
    ensures refused { IfErr result (λ fault. fault ≢ IsMemory → IsConfigFault bytes.now fault) }
{
    let text = match text_in(bytes) {
        Ok(text) => text,
        Err(fault) => return Err(fault),
    };
    match from_toml(alloc, text) {
        Ok(config) => with_room(config),
        Err(fault) => Err(fault),
    }
}

/// The text of bytes in UTF-8; 1 Toml of any others.
fn text_in(bytes: &[u8]) -> Result<&str, ConfigFault>
    ensures text { IfOk result (λ text. (text.now ≡ bytes.now) × IsUtf8 bytes.now) }
    ensures none { IfErr result (λ fault. (fault ≡ IsToml) × ¬ (IsUtf8 bytes.now)) }
{
    str::from_utf8(bytes).map_err(|_error| ConfigFault::Toml)
}

/// The configuration, if a server has room for it; else 4 Shape.
fn with_room(config: ServerConfig) -> Result<ServerConfig, ConfigFault>
    ensures fits { IfOk result (λ c. (c ≡ config) × (entry_count (outline config) < most_entries)) }
    ensures full { IfErr result (λ fault. (fault ≡ IsShape) × ¬ (entry_count (outline config) < most_entries)) }
{
    if has_room_for(&config) {
        Ok(config)
    } else {
        Err(ConfigFault::Shape)
    }
}

impl<M: PrefixMap<u32>> Server<M> {
    /// A server of the configuration in these bytes. Refused as `config_in` refuses them.
    pub fn read(alloc: Global, bytes: &[u8]) -> Result<Server<M>, ConfigFault>
        ensures spelled { IfOk result (λ server. IsServedConfig bytes.now server) }
        ensures refused { IfErr result (λ fault. fault ≢ IsMemory → IsConfigFault bytes.now fault) }
    {
        match config_in(alloc, bytes) {
            Ok(config) => match Server::build(alloc, config) {
                Ok(server) => Ok(server),
                Err(_refused) => Err(ConfigFault::Memory),
            },
            Err(fault) => Err(fault),
        }
    }

    /// A server of a configuration. Refused as 4 Shape if a server has no room for it, else only as 5 Memory.
    pub fn of_config(alloc: Global, config: ServerConfig) -> Result<Server<M>, ConfigFault>
        ensures built { IfOk result (λ server. (server ≡ outline config) × HasRoom (outline config)) }
        ensures refused { IfErr result (λ fault. fault ≢ IsMemory → (fault ≡ IsShape) × ¬ (HasRoom (outline config))) }
    {
        let config = with_room(config)?;
        match Server::build(alloc, config) {
            Ok(server) => Ok(server),
            Err(_refused) => Err(ConfigFault::Memory),
        }
    }

    /// Replaces the server's configuration. Refused as `of_config` refuses it; then the server is unchanged.
    pub fn adopt_config(&mut self, alloc: Global, config: ServerConfig) -> Result<(), ConfigFault>
        ensures taken { OnOk result ((self.new ≡ outline config) × HasRoom (outline config)) }
        ensures refused { IfErr result (λ fault. fault ≢ IsMemory → (fault ≡ IsShape) × ¬ (HasRoom (outline config))) }
        ensures unchanged { OnErr result (self.new ≡ self.old) }
    {
        match Server::of_config(alloc, config) {
            Ok(newer) => {
                *self = newer;
                Ok(())
            }
            Err(fault) => Err(fault),
        }
    }

    /// Replaces the server's configuration by the one in these bytes. Refused as `config_in` refuses them; then the
    /// server is unchanged.
    pub fn adopt(&mut self, alloc: Global, bytes: &[u8]) -> Result<(), ConfigFault>
        ensures taken { IfOk result (λ _. IsServedConfig bytes.now self.new) }
        ensures refused { IfErr result (λ fault. fault ≢ IsMemory → IsConfigFault bytes.now fault) }
        ensures unchanged { OnErr result (self.new ≡ self.old) }
    {
        match config_in(alloc, bytes) {
            Ok(config) => self.adopt_config(alloc, config),
            Err(fault) => Err(fault),
        }
    }
}
