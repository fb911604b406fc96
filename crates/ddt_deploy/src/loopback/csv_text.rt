//! A register as CSV (RFC 4180), row after row.

ghost use Rattle.std.specs.Prelude.{◌≡◌, ◌++◌, ◌∷◌, List, ℕ, Ok, IfOk, OnOk, MatchOption, map};
ghost use Rattle.std.specs.Option.{option_map};
ghost use Rattle.csv.specs.Reading.{default_config, records, strip_bom};
ghost use Rattle.csv.specs.Records.{fields_of};
ghost use Rattle.csv.specs.Writing.{default_writer, row_text};
ghost use Rattle.ddt_register.specs.declared.csv_row.Row.{Row};
ghost use Rattle.ddt_register.specs.Spelled.{lists_of, spelled};
ghost use Rattle.ddt_deploy.specs.Loopback.Records.{AreItsRows, records_of, row_fields};
ghost use Rattle.ddt_deploy.specs.Loopback.Written.{IsFresh, IsNotFirst, TakesItem, left_of, text_of, text_so_far};

use crate::loopback::fields::{group_record, record_of, site_record, zone_record};
use csv::{ByteRecord, Writer, WriterBuilder};
use ddt_register::{Group, Item, MOST_ROWS, Register, Site, Zone};
use std::alloc::{AllocError, Global};

/// The items of a register that aren't written yet.
#[derive(Clone, Copy)]
pub(crate) struct Left<'a> {
    pub zones: &'a [Zone],
    pub sites: &'a [Site],
    pub groups: &'a [Group],
}

impl Left<'_> {
    /// Takes the item of this row, if it is the first of its list, and returns its fields; None if no list begins with
    /// an item of this row.
    fn take(&mut self, alloc: Global, row: u32) -> Result<Option<ByteRecord>, AllocError>
        ensures { IfOk result (λ fields.
            TakesItem row (left_of self.old) (left_of self.new) (option_map fields_of fields)) }
    {
        if let Some((zone, zones)) = split_at_row(self.zones, row) {
            self.zones = zones;
            return Ok(Some(zone_record(alloc, zone)?));
        }
        if let Some((site, sites)) = split_at_row(self.sites, row) {
            self.sites = sites;
            return Ok(Some(site_record(alloc, site)?));
        }
        if let Some((group, groups)) = split_at_row(self.groups, row) {
            self.groups = groups;
            return Ok(Some(group_record(alloc, group)?));
        }
        Ok(None)
    }
}

/// Returns the first item and those after it, if the first has this row.
fn split_at_row<T: Item>(items: &[T], row: u32) -> Option<(&T, &[T])>
    ensures { MatchOption result (IsNotFirst T.row_of row items.now)
        (λ p. (items.now ≡ p.0.now ∷ p.1.now) × (T.row_of p.0.now ≡ row)) }
{
    match items {
        [first, rest @ ..] if first.row() == row => Some((first, rest)),
        _ => None,
    }
}

/// Writes a record.
fn push_record(writer: &mut Writer<Vec<u8>>, fields: &ByteRecord) -> Result<(), AllocError>
    requires { IsFresh writer.old }
    ensures fresh { OnOk result (IsFresh writer.new) }
    ensures text { OnOk result (text_so_far writer.new
        ≡ text_so_far writer.old ++ row_text default_writer (fields_of fields.now)) }
{
    writer
        .write_byte_record(fields)
        .map_err(|_error| AllocError)
}

/// Writes the records of all rows, in their order.
fn push_rows(
    alloc: Global,
    writer: &mut Writer<Vec<u8>>,
    register: &Register,
) -> Result<(), AllocError>
    requires { IsFresh writer.old }
    ensures { OnOk result ((rows : List Row) × AreItsRows register.now rows
        × (text_so_far writer.new ≡ text_so_far writer.old ++ text_of (map row_fields rows))) }
{
    let mut left = Left {
        zones: register.zones.as_slice(),
        sites: register.sites.as_slice(),
        groups: register.groups.as_slice(),
    };
    for row in 1..MOST_ROWS + 1 {
        if let Some(fields) = left.take(alloc, row)? {
            push_record(writer, &fields)?;
        }
    }
    Ok(())
}

/// Returns the text of a register as CSV, in the form that `read_register` of `ddt_register` reads: the record that
/// names the columns, `kind,prefix,group,addresses`, and a record for each row, in their order. Prefixes and locators
/// are written as `ddt_text` writes them. If some text spells the register, so that its rows have no gap between them,
/// it is read back as it is.
pub fn register_text(alloc: Global, register: &Register) -> Result<Vec<u8>, AllocError>
    ensures written { IfOk result (λ text. (rows : List Row) × AreItsRows register.now rows
        × (text.items ≡ text_of (records_of rows))) }
    ensures again { IfOk result (λ text. (all : List (List (List ℕ))) → spelled all ≡ Ok (lists_of register.now)
        → spelled (records default_config (strip_bom text.items)) ≡ Ok (lists_of register.now)) }
{
    let mut writer = WriterBuilder::new().from_writer(Vec::new(alloc));
    let columns = record_of(alloc, b"kind", b"prefix", b"group", b"addresses")?;
    push_record(&mut writer, &columns)?;
    push_rows(alloc, &mut writer, register)?;
    match writer.into_inner() {
        Ok(text) => Ok(text),
        Err(_error) => Err(AllocError),
    }
}
