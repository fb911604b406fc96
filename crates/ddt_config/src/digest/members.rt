//! Reads the seal in a configuration's table.

ghost use Rattle.std.specs.Prelude.{◌≡◌};
ghost use Rattle.std.specs.Option.{option_map};
ghost use Rattle.toml.specs.Data.{get_member};
ghost use Rattle.toml.specs.View.{view, table_view};
ghost use Rattle.ddt_config.specs.Digest.Sealed.{key_text, count_of as count_of_data, count_at as count_at_of, digest_of as digest_of_data, digest_at as digest_at_of, has_seal_key, sealed_in, seal_in as seal_in_of};

use crate::digest::counts::Counts;
use crate::digest::fault::{Key, SealFault};
use crate::digest::seal::Seal;
use hex::FromHex;
use toml::{Table, Value};

/// Reads the seal in a configuration's table, at `authorities`, `children`, `digest` and `sites`. None if the table
/// has none of these keys.
///
/// Refused by the first of these keys, in this order, that is missing while another is there (Missing), or whose value
/// is no count of 0 to 4,294,967,295, or no text of 64 hexadecimal digits (Value).
pub fn seal_in(table: &Table) -> Result<Option<Seal>, SealFault>
    ensures { result ≡ seal_in_of (table_view table.now) }
{
    if !has_key(table) {
        return Ok(None);
    }
    match whole_seal_in(table) {
        Ok(seal) => Ok(Some(seal)),
        Err(fault) => Err(fault),
    }
}

fn has_key(table: &Table) -> bool
    ensures { result ≡ has_seal_key (table_view table.now) }
{
    value_at(table, Key::Authorities).is_some()
        || value_at(table, Key::Children).is_some()
        || value_at(table, Key::Digest).is_some()
        || value_at(table, Key::Sites).is_some()
}

fn whole_seal_in(table: &Table) -> Result<Seal, SealFault>
    ensures { result ≡ sealed_in (table_view table.now) }
{
    let authorities = count_at(table, Key::Authorities)?;
    let children = count_at(table, Key::Children)?;
    let digest = digest_at(table)?;
    let sites = count_at(table, Key::Sites)?;
    Ok(Seal {
        counts: Counts {
            authorities,
            children,
            sites,
        },
        digest,
    })
}

fn value_at<'t>(table: &'t Table, key: Key) -> Option<&'t Value>
    ensures { option_map (λ v. view v.now) result ≡ get_member (key_text key) (table_view table.now) }
{
    table.get(key.text())
}

fn count_at(table: &Table, key: Key) -> Result<u32, SealFault>
    ensures { result ≡ count_at_of key (table_view table.now) }
{
    match value_at(table, key) {
        Some(value) => count_of(value, key),
        None => Err(SealFault::Missing(key)),
    }
}

fn count_of(value: &Value, key: Key) -> Result<u32, SealFault>
    ensures { result ≡ count_of_data key (view value.now) }
{
    match value.as_integer() {
        Some(count) if 0 <= count && count <= u32::MAX as i64 => Ok(count as u32),
        _ => Err(SealFault::Value(key)),
    }
}

fn digest_at(table: &Table) -> Result<[u8; 32], SealFault>
    ensures { result ≡ digest_at_of (table_view table.now) }
{
    match value_at(table, Key::Digest) {
        Some(value) => digest_of(value),
        None => Err(SealFault::Missing(Key::Digest)),
    }
}

fn digest_of(value: &Value) -> Result<[u8; 32], SealFault>
    ensures { result ≡ digest_of_data (view value.now) }
{
    let Some(text) = value.as_str() else {
        return Err(SealFault::Value(Key::Digest));
    };
    match <[u8; 32] as FromHex>::from_hex(text.as_bytes()) {
        Ok(digest) => Ok(digest),
        Err(_) => Err(SealFault::Value(Key::Digest)),
    }
}
