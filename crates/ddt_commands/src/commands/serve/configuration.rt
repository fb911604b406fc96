//! The configuration in a file, of which a server is built.

ghost use Rattle.std.specs.Prelude.{◌≡◌, ◌<◌, ℕ, List, None, IsErr, IfOk, IfErr};
ghost use Rattle.ddt_config.specs.Entries.{entry_count};
ghost use Rattle.ddt_config.specs.Table.{outline};
ghost use Rattle.ddt_trie.specs.PrefixMap.{most_entries};
ghost use Rattle.ddt_commands.specs.Register.{HasBytes};
ghost use Rattle.ddt_node.specs.Spelled.{IsServedConfig};
ghost use Rattle.ddt_commands.specs.Commands.Serve.{IsBadConfig, IsWhyNoConfig, config_refusal};

use crate::file::bytes_of;
use crate::refusal::{Refusal, ServerRefusal};
use ddt_config::{ConfigFault, ServerConfig};
use ddt_node::config_in;
use std::alloc::Global;
use std::io::Read;

/// The configuration of a source that could be opened, or why there is none. A server can be built of it.
pub fn config_at<F: Read + Drop>(
    alloc: Global,
    source: Option<F>,
    path: &str,
) -> Result<ServerConfig, Refusal<'_>>
    ensures spelled { IfOk result (λ c. (bytes : List ℕ) → HasBytes F.remaining source bytes
        → IsServedConfig bytes (outline c)) }
    ensures room { IfOk result (λ c. entry_count (outline c) < most_entries) }
    ensures refused { IfErr result (IsWhyNoConfig F.remaining source path.now) }
    ensures closed { source ≡ None → IsErr result }
{
    let unread = Refusal::NoServer(ServerRefusal::CannotOpen(path));
    let Some(file) = source else {
        return Err(unread);
    };
    let bytes = bytes_of(alloc, file, unread)?;
    config_of(alloc, &bytes)
}

/// The configuration that the bytes spell, or why there is none.
fn config_of(alloc: Global, bytes: &[u8]) -> Result<ServerConfig, Refusal<'static>>
    ensures spelled { IfOk result (λ c. IsServedConfig bytes.now (outline c)) }
    ensures refused { IfErr result (IsBadConfig bytes.now) }
{
    match config_in(alloc, bytes) {
        Ok(config) => Ok(config),
        Err(fault) => Err(refused_config(fault)),
    }
}

/// What is refused where bytes are no configuration: 5 Memory is out of memory, each other fault a bad configuration.
fn refused_config(fault: ConfigFault) -> Refusal<'static>
    ensures { result ≡ config_refusal fault }
{
    match fault {
        ConfigFault::Memory => Refusal::OutOfMemory,
        fault => Refusal::NoServer(ServerRefusal::BadConfig(fault)),
    }
}
