//! The secret of a key: a text, or hexadecimal digits.

ghost use Rattle.std.specs.Prelude.{◌≡◌};
ghost use Rattle.toml.specs.Data.{get_member};
ghost use Rattle.toml.specs.View.{view, table_view};
ghost use Rattle.ddt_map_server.specs.Keys.Table.{fitting, text_secret_of, hex_secret_of, secret_in as secret_of_table};
ghost use Rattle.ddt_map_server.specs.Keys.Reading.{Reads};

use crate::keys::fault::{KeysFault, Member};
use crate::keys::members::{text_in, value_at};
use ddt_path::Listed;
use hex::FromHexError;
use std::alloc::Global;
use toml::{Table, Value};

/// The most bytes of a secret: the block size of both hashes (RFC 2104, section 2).
pub const LONGEST_SECRET: usize = 64;

/// The secret, if it has 1 to 64 bytes.
fn fit(secret: Vec<u8>, member: Member) -> Result<Listed<u8>, KeysFault>
    ensures { result ≡ fitting member secret.items }
{
    if secret.is_empty() || secret.len() > LONGEST_SECRET {
        Err(KeysFault::Value(member))
    } else {
        Ok(Listed::of(secret))
    }
}

/// The bytes of a text.
fn text_secret(alloc: Global, value: &Value) -> Result<Listed<u8>, KeysFault>
    ensures { Reads (text_secret_of (view value.now)) result }
{
    let text = text_in(value, Member::Secret)?;
    let secret = Vec::from_slice(alloc, text.as_bytes())?;
    fit(secret, Member::Secret)
}

/// The bytes of hexadecimal digits.
fn hex_secret(alloc: Global, value: &Value) -> Result<Listed<u8>, KeysFault>
    ensures { Reads (hex_secret_of (view value.now)) result }
{
    let text = text_in(value, Member::SecretHex)?;
    match hex::decode(alloc, text.as_bytes()) {
        Ok(secret) => fit(secret, Member::SecretHex),
        Err(FromHexError::OutOfMemory) => Err(KeysFault::Memory),
        Err(_fault) => Err(KeysFault::Value(Member::SecretHex)),
    }
}

/// The secret of a key, from `secret` or `secret_hex`. Refused if both are there (4 Secrets) or neither (2 Field).
pub fn secret_in(alloc: Global, table: &Table) -> Result<Listed<u8>, KeysFault>
    ensures { Reads (secret_of_table (table_view table.now)) result }
{
    match (
        value_at(table, Member::Secret),
        value_at(table, Member::SecretHex),
    ) {
        (Some(text), None) => text_secret(alloc, text),
        (None, Some(digits)) => hex_secret(alloc, digits),
        (Some(_text), Some(_digits)) => Err(KeysFault::Secrets),
        (None, None) => Err(KeysFault::Field(Member::Secret)),
    }
}
