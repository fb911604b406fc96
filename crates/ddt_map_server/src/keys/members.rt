//! Reads the members of a table of the key file.

ghost use Rattle.std.specs.Prelude.{◌≡◌, map};
ghost use Rattle.std.specs.Option.{option_map};
ghost use Rattle.toml.specs.Data.{get_member};
ghost use Rattle.toml.specs.View.{view, table_view};
ghost use Rattle.ddt_path.specs.Steps.{IsReadAs};
ghost use Rattle.ddt_map_server.specs.Keys.Table.{member_text, array_of, table_of, text_of, byte_of, text_at as text_at_of, text_or as text_or_of, accepts_in as accepts_of, id_in as id_of, path_in, algorithm_of as algorithm_of_text, replay_of as replay_of_text, falls_back_of, algorithm_in as algorithm_of_table, replay_in as replay_of_table, falls_back_in as falls_back_of_table};

use crate::keys::fault::{KeysFault, Member};
use ddt_map_register::{SHA1_96, SHA256_128};
use ddt_path::Prefix;
use ddt_registrar::Replay;
use ddt_text::parse_prefix;
use toml::{Table, Value};

/// The value of a member.
pub fn value_at<'t>(table: &'t Table, member: Member) -> Option<&'t Value>
    ensures { option_map (λ v. view v.now) result ≡ get_member (member_text member) (table_view table.now) }
{
    table.get(member.text())
}

/// The values of an array; 2 Field if the value isn't one.
pub fn array_in<'t>(value: &'t Value, member: Member) -> Result<&'t [Value], KeysFault>
    ensures { IsReadAs (λ vs. map view vs.now) result (array_of member (view value.now)) }
{
    match value.as_array() {
        Some(values) => Ok(values.as_slice()),
        None => Err(KeysFault::Field(member)),
    }
}

/// The table that a value is; 2 Field if it isn't one.
pub fn table_in<'t>(value: &'t Value, member: Member) -> Result<&'t Table, KeysFault>
    ensures { IsReadAs (λ t. table_view t.now) result (table_of member (view value.now)) }
{
    value.as_table().ok_or(KeysFault::Field(member))
}

/// The text that a value is; 2 Field if it isn't one.
pub fn text_in<'t>(value: &'t Value, member: Member) -> Result<&'t str, KeysFault>
    ensures { IsReadAs (λ t. t.now) result (text_of member (view value.now)) }
{
    value.as_str().ok_or(KeysFault::Field(member))
}

/// The text of a required member.
fn text_at<'t>(table: &'t Table, member: Member) -> Result<&'t str, KeysFault>
    ensures { IsReadAs (λ t. t.now) result (text_at_of member (table_view table.now)) }
{
    let value = value_at(table, member).ok_or(KeysFault::Field(member))?;
    text_in(value, member)
}

/// The text of a member, or `missing` if it is missing.
fn text_or<'t>(table: &'t Table, member: Member, missing: &'t str) -> Result<&'t str, KeysFault>
    ensures { IsReadAs (λ t. t.now) result (text_or_of member missing.now (get_member (member_text member)
        (table_view table.now))) }
{
    match value_at(table, member) {
        Some(value) => text_in(value, member),
        None => Ok(missing),
    }
}

/// The prefix of a key.
pub fn prefix_in(table: &Table) -> Result<Prefix, KeysFault>
    ensures { result ≡ path_in (table_view table.now) }
{
    match text_at(table, Member::Prefix) {
        Ok(text) => parse_prefix(text.as_bytes()).map_err(|_| KeysFault::Value(Member::Prefix)),
        Err(fault) => Err(fault),
    }
}

/// Whether a key also belongs to the sites inside its prefix; false if the member is missing.
pub fn accepts_in(table: &Table) -> Result<bool, KeysFault>
    ensures { result ≡ accepts_of (get_member (member_text Member.AcceptMoreSpecifics) (table_view table.now)) }
{
    match value_at(table, Member::AcceptMoreSpecifics) {
        Some(value) => value
            .as_bool()
            .ok_or(KeysFault::Field(Member::AcceptMoreSpecifics)),
        None => Ok(false),
    }
}

/// A number from 0 to 255.
fn byte(number: i64) -> Option<u8>
    ensures { result ≡ byte_of number }
{
    match number {
        0..=255 => Some(number as u8),
        _ => None,
    }
}

/// The Key ID.
pub fn id_in(table: &Table) -> Result<u8, KeysFault>
    ensures { result ≡ id_of (get_member (member_text Member.Id) (table_view table.now)) }
{
    match value_at(table, Member::Id) {
        Some(value) => match value.as_integer() {
            Some(number) => byte(number).ok_or(KeysFault::Value(Member::Id)),
            None => Err(KeysFault::Field(Member::Id)),
        },
        None => Err(KeysFault::Field(Member::Id)),
    }
}

fn algorithm_of(text: &str) -> Result<u8, KeysFault>
    ensures { result ≡ algorithm_of_text text.now }
{
    match text {
        "sha1" => Ok(SHA1_96),
        "sha256" => Ok(SHA256_128),
        _ => Err(KeysFault::Value(Member::Algorithm)),
    }
}

/// The Algorithm ID.
pub fn algorithm_in(table: &Table) -> Result<u8, KeysFault>
    ensures { result ≡ algorithm_of_table (table_view table.now) }
{
    text_at(table, Member::Algorithm).and_then(algorithm_of)
}

fn replay_of(text: &str) -> Result<Replay, KeysFault>
    ensures { result ≡ replay_of_text text.now }
{
    match text {
        "increasing" => Ok(Replay::Increasing),
        "any" => Ok(Replay::Any),
        _ => Err(KeysFault::Value(Member::Replay)),
    }
}

/// Whether nonces have to increase; they have to if the member is missing.
pub fn replay_in(table: &Table) -> Result<Replay, KeysFault>
    ensures { result ≡ replay_of_table (table_view table.now) }
{
    text_or(table, Member::Replay, "increasing").and_then(replay_of)
}

fn is_fallback(text: &str) -> Result<bool, KeysFault>
    ensures { result ≡ falls_back_of text.now }
{
    match text {
        "until_registered" => Ok(false),
        "fallback" => Ok(true),
        _ => Err(KeysFault::Value(Member::StaticEtrs)),
    }
}

/// Whether the configured ETRs are used again after the last registration is over; false if the member is missing.
pub fn falls_back_in(table: &Table) -> Result<bool, KeysFault>
    ensures { result ≡ falls_back_of_table (table_view table.now) }
{
    text_or(table, Member::StaticEtrs, "until_registered").and_then(is_fallback)
}
