//! The text of a configuration with its seal.

ghost use Rattle.std.specs.Prelude.{◌≡◌, IfOk, OnOk, string_bytes, pos};
ghost use Rattle.toml.specs.Data.{integer};
ghost use Rattle.toml.specs.View.{view, table_view};
ghost use Rattle.ddt_config.specs.Table.{outline, StandsFor};
ghost use Rattle.ddt_config.specs.Writing.{inserted};
ghost use Rattle.ddt_config.specs.Digest.Sealed.{key_text, with_seal, IsSealedText};

use crate::digest::fault::Key;
use crate::digest::seal::{Seal, seal_of};
use crate::{ServerConfig, to_table};
use std::alloc::{AllocError, Global};
use toml::{Table, Value, ser};

/// Returns the text of a configuration, as `to_toml` does, with the four keys of its seal at the top, before all
/// tables: `authorities`, `children`, `digest` and `sites`. `from_toml` reads it as the same configuration. A text
/// that is cut at the end of a line has all keys of the seal, or lacks one of the configuration's or the seal's. Fails
/// only if out of memory.
pub fn to_sealed_toml(alloc: Global, config: &ServerConfig) -> Result<String, AllocError>
    ensures read_back { IfOk result (λ text. StandsFor (string_bytes text) config.now) }
    ensures sealed { IfOk result (λ text. IsSealedText (string_bytes text) (outline config.now)) }
{
    let mut table = to_table(alloc, config)?;
    put_seal(alloc, &mut table, seal_of(alloc, config)?)?;
    match toml::table_to_string(alloc, &table) {
        Ok(text) => Ok(text),
        Err(ser::Error::OutOfMemory) => Err(AllocError),
        Err(ser::Error::DateInvalid) => unreachable!(),
    }
}

/// Puts the keys of a seal into a table that lacks them.
fn put_seal(alloc: Global, table: &mut Table, seal: Seal) -> Result<(), AllocError>
    ensures { OnOk result (table_view table.new ≡ with_seal seal (table_view table.old)) }
{
    put(
        alloc,
        table,
        Key::Authorities,
        count_value(seal.counts.authorities),
    )?;
    put(
        alloc,
        table,
        Key::Children,
        count_value(seal.counts.children),
    )?;
    let digest = Value::String(hex::encode(alloc, seal.digest)?);
    put(alloc, table, Key::Digest, digest)?;
    put(alloc, table, Key::Sites, count_value(seal.counts.sites))
}

fn count_value(count: u32) -> Value
    ensures { view result ≡ integer (pos count) }
{
    Value::Integer(count as i64)
}

#[tactic(auto, using(crate::proofs::WriteLemmas::members_inserted))]
fn put(alloc: Global, table: &mut Table, key: Key, value: Value) -> Result<(), AllocError>
    ensures { OnOk result (table_view table.new ≡ inserted (key_text key) (view value) (table_view table.old)) }
{
    table.insert(String::from_str(alloc, key.text())?, value)?;
    Ok(())
}
