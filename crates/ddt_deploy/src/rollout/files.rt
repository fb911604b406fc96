//! The files of configurations at a stage.

ghost use Rattle.std.specs.Prelude.{◌≡◌, ◌≢◌, ℕ, List, Some, None, IfOk, IfErr};
ghost use Rattle.ddt_deploy.specs.Rollout.Configurations.{refusal_of};
ghost use Rattle.ddt_deploy.specs.Rollout.Files.{AreFilesAt, AreFilesOf, IsFileOf};

use crate::folders::in_order;
use crate::rollout::configurations::configurations_at;
use crate::rollout::fault::RolloutFault;
use crate::rollout::stage::Stage;
use ddt_check::Accepted;
use ddt_config::ServerConfig;
use ddt_config::digest::to_sealed_toml;
use ddt_path::Name;
use std::alloc::{AllocError, Global};

/// The file of a group's configuration.
#[derive(Drop)]
pub struct ConfigFile {
    /// The name of the group.
    pub group: Name,
    pub bytes: Vec<u8>,
}

/// Returns the file of each group's configuration at a stage, as `ddtplan compile` writes it, in the order of the
/// groups' names. Refused as `configurations_at` is.
pub fn files_at(
    alloc: Global,
    before: &Accepted,
    after: &Accepted,
    stage: Stage,
) -> Result<Vec<ConfigFile>, RolloutFault>
    ensures found { IfOk result (λ files. AreFilesAt before.now after.now stage files.items) }
    ensures good { IfOk result (λ _. (name : List ℕ) → refusal_of before.now after.now stage name ≡ None) }
    ensures refused { IfErr result (λ fault. fault ≢ RolloutFault.Memory
        → (name : List ℕ) × (refusal_of before.now after.now stage name ≡ Some fault)) }
{
    let configs = configurations_at(alloc, before, after, stage)?;
    Ok(files_of(alloc, configs)?)
}

/// Returns the file of each configuration.
pub(crate) fn files_of(
    alloc: Global,
    configs: Vec<ServerConfig>,
) -> Result<Vec<ConfigFile>, AllocError>
    ensures { IfOk result (λ files. AreFilesOf configs.items files.items) }
{
    let mut files = Vec::new(alloc);
    for config in configs {
        files.push(file_of(alloc, config)?)?;
    }
    Ok(files)
}

/// Returns the file of a configuration.
fn file_of(alloc: Global, config: ServerConfig) -> Result<ConfigFile, AllocError>
    ensures { IfOk result (λ file. IsFileOf config file) }
{
    let group = config.name;
    let ordered = in_order(alloc, config)?;
    let text = to_sealed_toml(alloc, &ordered)?;
    Ok(ConfigFile {
        group,
        bytes: text.into_bytes(),
    })
}
