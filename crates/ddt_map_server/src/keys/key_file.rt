//! Reads the file of the keys, which is in TOML.

ghost use Rattle.std.specs.Prelude.{◌≡◌, ◌≢◌, ◌⊎◌, List, map, Ok, Err, IfOk, IfErr};
ghost use Rattle.toml.specs.Errors.{IsMemory};
ghost use Rattle.toml.specs.View.{view, table_view};
ghost use Rattle.ddt_map_server.specs.declared.keys.site_key.SiteKey.{SiteKey as AKey};
ghost use Rattle.ddt_map_server.specs.Keys.Table.{each, entry_of, keys_in, keys_in_text};
ghost use Rattle.ddt_map_server.specs.Keys.Reading.{Reads, IsToldAs};

use crate::keys::fault::{KeysFault, Member};
use crate::keys::members::{array_in, table_in, value_at};
use crate::keys::site_key::SiteKey;
use ddt_path::Listed;
use std::alloc::Global;
use toml::{Table, Value, de};

/// Reads the keys from a text in TOML. At its top is `key`, an array of tables, which have
///
/// - `prefix`, a text as in a configuration: the prefix of a site;
/// - `accept_more_specifics`, whether the key also belongs to the sites inside that prefix; false if it is missing;
/// - `id`, the Key ID, 0 to 255;
/// - `algorithm`, `"sha1"` for HMAC-SHA-1-96 or `"sha256"` for HMAC-SHA-256-128;
/// - either `secret`, a text, or `secret_hex`, the hexadecimal digits of the bytes; the secret has 1 to 64 bytes;
/// - `replay`, `"increasing"` or `"any"`; the first if it is missing;
/// - `static_etrs`, `"until_registered"` or `"fallback"`; the first if it is missing.
///
/// Other members are ignored. Refused, by the first fault in the order of the tables, then of these members:
///
/// - 1 Toml: the text is no TOML.
/// - 2 Field: a required member is missing, or a member has a value of another type.
/// - 3 Value: the value of a member isn't of its form.
/// - 4 Secrets: both `secret` and `secret_hex` are there.
/// - 8 Memory: memory ran out; it may come in place of any other.
pub fn read_keys_text(alloc: Global, text: &str) -> Result<Listed<SiteKey>, KeysFault>
    ensures found { IfOk result (λ keys. keys_in_text text.now ≡ Ok keys) }
    ensures every { (keys : List AKey) → keys_in_text text.now ≡ Ok keys
        → (result ≡ Ok keys) ⊎ (result ≡ Err KeysFault.Memory) }
    ensures refused { IfErr result (λ fault. fault ≢ KeysFault.Memory → keys_in_text text.now ≡ Err fault) }
{
    match toml::table_from_str(alloc, text) {
        Ok(table) => read_keys(alloc, &table),
        Err(fault) => Err(toml_fault(&fault)),
    }
}

/// The fault of a text that `toml` refuses: 8 Memory if and only if memory ran out, else 1 Toml.
fn toml_fault(fault: &de::Error) -> KeysFault
    ensures { IsToldAs (IsMemory fault.now) result }
{
    if fault.is_memory() {
        KeysFault::Memory
    } else {
        KeysFault::Toml
    }
}

/// Reads the keys from a table. Refused as `read_keys_text` refuses a text of this table, but never as 1 Toml.
pub fn read_keys(alloc: Global, table: &Table) -> Result<Listed<SiteKey>, KeysFault>
    ensures found { IfOk result (λ keys. keys_in (table_view table.now) ≡ Ok keys) }
    ensures every { (keys : List AKey) → keys_in (table_view table.now) ≡ Ok keys
        → (result ≡ Ok keys) ⊎ (result ≡ Err KeysFault.Memory) }
    ensures refused { IfErr result (λ fault. fault ≢ KeysFault.Memory → keys_in (table_view table.now) ≡ Err fault) }
{
    let value = value_at(table, Member::Key).ok_or(KeysFault::Field(Member::Key))?;
    let values = array_in(value, Member::Key)?;
    read_each(alloc, values)
}

fn read_each(alloc: Global, values: &[Value]) -> Result<Listed<SiteKey>, KeysFault>
    ensures { Reads (each entry_of (map view values.now)) result }
{
    let mut keys = Vec::with_capacity(alloc, values.len())?;
    for value in values {
        let key = read_entry(alloc, value)?;
        keys.push(key)?;
    }
    Ok(Listed::of(keys))
}

fn read_entry(alloc: Global, value: &Value) -> Result<SiteKey, KeysFault>
    ensures { Reads (entry_of (view value.now)) result }
{
    let table = table_in(value, Member::Key)?;
    SiteKey::read(alloc, table)
}
