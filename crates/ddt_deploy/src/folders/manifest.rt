//! The manifest: the SHA-256 of each file, a line for each, as `sha256sum` writes them and `sha256sum --check` reads
//! them.

ghost use Rattle.std.specs.Prelude.{◌≡◌, ◌++◌, ℕ, List, IfOk, OnOk, MatchOption};
ghost use Rattle.std.specs.BTreeMap.{get};
ghost use Rattle.std.specs.Cmp.Lexicographic.{slice_cmp};
ghost use Rattle.std.specs.Ordering.{nat_cmp};
ghost use Rattle.std.specs.String.{string_bytes};
ghost use Rattle.std.specs.List.{flat_map};
ghost use Rattle.ddt_deploy.specs.Folders.Manifest.{digits_of as digits_of_bytes, kept_line, listed_line, manifest_line, AreConfigsIn, HasLine, NamesConfig};

use crate::folders::file_name::FileName;
use crate::folders::step::{ListedConfig, NamedFile};
use ddt_path::{Listed, Name};
use sha2::{Digest, Sha256};
use std::alloc::{AllocError, Global};
use std::collections::BTreeMap;

/// The number of digits of the SHA-256 in a line.
const DIGEST: usize = 64;

/// Appends a line for each file: its SHA-256 in hexadecimal, two blanks, and its name.
pub(crate) fn push_lines(text: &mut Vec<u8>, files: &[NamedFile]) -> Result<(), AllocError>
    ensures { OnOk result (text.new.items ≡ text.old.items ++ flat_map manifest_line files.now) }
{
    for file in files {
        push_line(text, file)?;
    }
    Ok(())
}

fn push_line(text: &mut Vec<u8>, file: &NamedFile) -> Result<(), AllocError>
    ensures { OnOk result (text.new.items ≡ text.old.items ++ manifest_line file.now) }
{
    let digits = digits_of(*text.allocator(), file.bytes.as_slice())?;
    push_listed(text, digits.as_bytes(), file.name)
}

/// Returns the SHA-256 of the bytes in hexadecimal digits.
pub(crate) fn digits_of(alloc: Global, bytes: &[u8]) -> Result<String, AllocError>
    ensures { IfOk result (λ digits. string_bytes digits ≡ digits_of_bytes bytes.now) }
{
    hex::encode(alloc, Sha256::digest(bytes))
}

/// Appends the line of a file: digits, two blanks, and its name.
fn push_listed(text: &mut Vec<u8>, digits: &[u8], name: FileName) -> Result<(), AllocError>
    ensures { OnOk result (text.new.items ≡ text.old.items ++ listed_line digits.now name) }
{
    text.extend_from_slice(digits)?;
    text.extend_from_slice(b"  ")?;
    name.push(text)?;
    text.push(b'\n')?;
    Ok(())
}

/// Appends the lines that some configurations have already.
pub(crate) fn push_kept(text: &mut Vec<u8>, kept: &[ListedConfig]) -> Result<(), AllocError>
    ensures { OnOk result (text.new.items ≡ text.old.items ++ flat_map kept_line kept.now) }
{
    for listed in kept {
        push_listed(
            text,
            listed.digits.as_slice(),
            FileName::Config(listed.name),
        )?;
    }
    Ok(())
}

/// Returns the groups that have a line for their configuration in a manifest, with the digits of the last such line, in
/// the order of their names. Other lines are skipped.
pub(crate) fn configs_in(
    alloc: Global,
    manifest: &[u8],
) -> Result<BTreeMap<Name, Listed<u8>>, AllocError>
    ensures { IfOk result (λ listed. AreConfigsIn manifest.now listed) }
{
    let mut listed = BTreeMap::new(alloc);
    for line in manifest.split(|byte| *byte == b'\n') {
        add_config(alloc, &mut listed, line)?;
    }
    Ok(listed)
}

/// Adds the group of a line, if the line is that of a configuration.
fn add_config(
    alloc: Global,
    listed: &mut BTreeMap<Name, Listed<u8>>,
    line: &[u8],
) -> Result<(), AllocError>
    ensures { OnOk result (HasLine line.now (get (slice_cmp nat_cmp) listed.old) (get (slice_cmp nat_cmp) listed.new)) }
{
    match config_on(line) {
        Some(name) => {
            let digits = Vec::from_slice(alloc, &line[..DIGEST])?;
            listed.insert(name, Listed::of(digits))?;
            Ok(())
        }
        None => Ok(()),
    }
}

/// Returns the group of a line, if the line is that of a configuration.
fn config_on(line: &[u8]) -> Option<Name>
    ensures { MatchOption result ((name : List ℕ) → ¬ (NamesConfig line.now name)) (NamesConfig line.now) }
{
    let behind = line.get(DIGEST..)?;
    let name = behind.strip_prefix(b"  ")?.strip_suffix(b".toml")?;
    Name::of(name)
}
