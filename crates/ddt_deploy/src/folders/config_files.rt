//! The files of a register: itself and its configurations.

ghost use Rattle.std.specs.Prelude.{◌≡◌, ◌∷◌, List, IfOk};
ghost use Rattle.std.specs.BTreeSet.{contains};
ghost use Rattle.std.specs.Cmp.Lexicographic.{slice_cmp};
ghost use Rattle.std.specs.Ordering.{nat_cmp};
ghost use Rattle.ddt_deploy.specs.declared.folders.step.NamedFile.{NamedFile as AFile};
ghost use Rattle.ddt_deploy.specs.Folders.Wanted.{register_file, AreGroupFiles, IsConfigFile};

use crate::folders::file_name::FileName;
use crate::folders::order::in_order;
use crate::folders::step::NamedFile;
use ddt_check::Accepted;
use ddt_compile::compile;
use ddt_config::ServerConfig;
use ddt_config::digest::to_sealed_toml;
use ddt_path::{Listed, Name};
use std::alloc::{AllocError, Global};
use std::collections::BTreeSet;

/// Returns the register itself, and the configuration of each group that isn't foreign as TOML with its seal, in the
/// order of the groups' names.
pub(crate) fn wanted_files(
    alloc: Global,
    accepted: &Accepted,
    register: &[u8],
    foreign: &BTreeSet<Name>,
) -> Result<Vec<NamedFile>, AllocError>
    ensures { IfOk result (λ files. (configs : List AFile)
        × AreGroupFiles (λ name. contains (slice_cmp nat_cmp) foreign.now name) accepted.now configs
        × (files.items ≡ register_file register.now ∷ configs)) }
{
    let mut files = Vec::new(alloc);
    files.push(NamedFile {
        name: FileName::Register,
        bytes: Listed::of(Vec::from_slice(alloc, register)?),
    })?;
    let mut configs = compile(alloc, accepted)?.into_vec();
    configs.retain(|config| !foreign.contains(&config.name));
    configs.sort_unstable_by_key(|config| config.name);
    for config in configs {
        files.push(config_file(alloc, config)?)?;
    }
    Ok(files)
}

/// Returns the file of a configuration.
fn config_file(alloc: Global, config: ServerConfig) -> Result<NamedFile, AllocError>
    ensures { IfOk result (IsConfigFile config) }
{
    let name = FileName::Config(config.name);
    let ordered = in_order(alloc, config)?;
    let text = to_sealed_toml(alloc, &ordered)?;
    Ok(NamedFile {
        name,
        bytes: Listed::of(text.into_bytes()),
    })
}
