//! What one record spells: a zone, a site or a server group.

ghost use Rattle.std.specs.Prelude.{◌≡◌, ◌≤◌, [], length, get_or, MatchResult};
ghost use Rattle.csv.specs.Records.{fields_of};
ghost use Rattle.ddt_text.specs.FirstFault.{locator_in, prefix_in};
ghost use Rattle.ddt_register.specs.Rows.{most_rows};
ghost use Rattle.ddt_register.specs.Spelled.{row_in, kind_in, item_in, group_in, zone_in, site_in, locators_in, name_in, empty_in, field_of, columns_in, are_columns as are_columns_of, UnlessMemory};

use crate::etrs::Etrs;
use crate::fault::ReadFault;
use crate::group::Group;
use crate::site::Site;
use crate::zone::Zone;
use csv::ByteRecord;
use ddt_path::{Listed, Locator, MOST_LOCATORS, Name, Prefix, Role};
use ddt_text::{parse_locator, parse_prefix};
use std::alloc::Global;

/// One row of the register.
#[derive(Debug, Drop)]
pub enum Row {
    Zone(Zone),
    Site(Site),
    Group(Group),
}

/// What the first field of a row says that the row is of.
#[derive(Clone, Copy, Debug)]
pub(crate) enum Kind {
    Group(Role),
    Zone(Role),
    Site,
}

fn read_prefix(row: u32, text: &[u8]) -> Result<Prefix, ReadFault>
    ensures { result ≡ field_of (ReadFault.Prefix row) (prefix_in text.now) }
{
    parse_prefix(text).map_err(|_| ReadFault::Prefix(row))
}

fn read_name(row: u32, text: &[u8]) -> Result<Name, ReadFault>
    ensures { result ≡ name_in (ReadFault.Name row) text.now }
{
    Name::of(text).ok_or(ReadFault::Name(row))
}

fn read_locator(row: u32, text: &[u8]) -> Result<Locator, ReadFault>
    ensures { result ≡ field_of (ReadFault.Address row) (locator_in text.now) }
{
    parse_locator(text).map_err(|_| ReadFault::Address(row))
}

/// An empty list with room for as many locators as a text has parts, but for no more than a group may have.
fn room_for(alloc: Global, text: &[u8]) -> Result<Vec<Locator>, ReadFault>
    ensures { MatchResult result (λ locators. locators.items ≡ []) (λ fault. fault ≡ ReadFault.Memory) }
{
    let parts = text.split(|byte| *byte == b' ').take(MOST_LOCATORS).count();
    Vec::with_capacity(alloc, parts).map_err(|_| ReadFault::Memory)
}

/// The locators, between which stands exactly one space; none in an empty text.
fn read_locators(alloc: Global, row: u32, text: &[u8]) -> Result<Listed<Locator>, ReadFault>
    ensures { UnlessMemory result (locators_in (ReadFault.Address row) text.now) }
{
    if text.is_empty() {
        return Ok(Listed::of(Vec::new(alloc)));
    }
    let mut locators = room_for(alloc, text)?;
    for part in text.split(|byte| *byte == b' ') {
        let locator = read_locator(row, part)?;
        locators.push(locator).map_err(|_| ReadFault::Memory)?;
    }
    Ok(Listed::of(locators))
}

/// The locators of a site's ETRs, as `read_locators` reads them. One alone takes no vector.
fn read_etrs(alloc: Global, row: u32, text: &[u8]) -> Result<Etrs, ReadFault>
    ensures { UnlessMemory result (locators_in (ReadFault.Address row) text.now) }
{
    if text.is_empty() || text.contains(&b' ') {
        return Ok(Etrs::of(read_locators(alloc, row, text)?.into_vec()));
    }
    Ok(Etrs::one(read_locator(row, text)?))
}

/// Nothing where a field is empty, as it must be; else this fault.
fn read_empty(text: &[u8], fault: ReadFault) -> Result<(), ReadFault>
    ensures { result ≡ empty_in fault text.now }
{
    if text.is_empty() { Ok(()) } else { Err(fault) }
}

/// Nothing where the prefix is empty, else Prefix.
fn read_no_prefix(row: u32, text: &[u8]) -> Result<(), ReadFault>
    ensures { result ≡ empty_in (ReadFault.Prefix row) text.now }
{
    read_empty(text, ReadFault::Prefix(row))
}

/// Nothing where the group is empty, else Name.
fn read_no_name(row: u32, text: &[u8]) -> Result<(), ReadFault>
    ensures { result ≡ empty_in (ReadFault.Name row) text.now }
{
    read_empty(text, ReadFault::Name(row))
}

/// Nothing where the addresses are empty, else Address.
fn read_no_locators(row: u32, text: &[u8]) -> Result<(), ReadFault>
    ensures { result ≡ empty_in (ReadFault.Address row) text.now }
{
    read_empty(text, ReadFault::Address(row))
}

/// The kind that a text names, else Kind.
fn read_kind(row: u32, text: &[u8]) -> Result<Kind, ReadFault>
    ensures { result ≡ kind_in (ReadFault.Kind row) text.now }
{
    if text == b"group-node".as_slice() {
        Ok(Kind::Group(Role::Node))
    } else if text == b"group-ms".as_slice() {
        Ok(Kind::Group(Role::Ms))
    } else if text == b"node".as_slice() {
        Ok(Kind::Zone(Role::Node))
    } else if text == b"ms".as_slice() {
        Ok(Kind::Zone(Role::Ms))
    } else if text == b"site".as_slice() {
        Ok(Kind::Site)
    } else {
        Err(ReadFault::Kind(row))
    }
}

/// The number of a row, and its fields behind the kind.
#[derive(Clone, Copy, Debug)]
struct Fields<'a> {
    row: u32,
    prefix: &'a [u8],
    group: &'a [u8],
    addresses: &'a [u8],
}

impl Fields<'_> {
    fn read_group(&self, alloc: Global, kind: Role) -> Result<Row, ReadFault>
        ensures { UnlessMemory result (group_in kind self.now.row self.now.prefix.now self.now.group.now
            self.now.addresses.now) }
    {
        read_no_prefix(self.row, self.prefix)?;
        let name = read_name(self.row, self.group)?;
        let locators = read_locators(alloc, self.row, self.addresses)?;
        Ok(Row::Group(Group {
            name,
            kind,
            locators,
            row: self.row,
        }))
    }

    fn read_zone(&self, kind: Role) -> Result<Row, ReadFault>
        ensures { result ≡ zone_in kind self.now.row self.now.prefix.now self.now.group.now self.now.addresses.now }
    {
        let prefix = read_prefix(self.row, self.prefix)?;
        let group = read_name(self.row, self.group)?;
        read_no_locators(self.row, self.addresses)?;
        Ok(Row::Zone(Zone {
            prefix,
            kind,
            group,
            row: self.row,
        }))
    }

    fn read_site(&self, alloc: Global) -> Result<Row, ReadFault>
        ensures { UnlessMemory result (site_in self.now.row self.now.prefix.now self.now.group.now
            self.now.addresses.now) }
    {
        let prefix = read_prefix(self.row, self.prefix)?;
        read_no_name(self.row, self.group)?;
        let etrs = read_etrs(alloc, self.row, self.addresses)?;
        Ok(Row::Site(Site {
            prefix,
            etrs,
            row: self.row,
        }))
    }

    /// What these fields spell as a row of this kind.
    fn read(&self, alloc: Global, kind: Kind) -> Result<Row, ReadFault>
        ensures { UnlessMemory result (item_in kind self.now.row self.now.prefix.now self.now.group.now
            self.now.addresses.now) }
    {
        match kind {
            Kind::Group(role) => self.read_group(alloc, role),
            Kind::Zone(role) => self.read_zone(role),
            Kind::Site => self.read_site(alloc),
        }
    }
}

/// The field at a place of a record, empty past its last field.
fn field(fields: &ByteRecord, place: usize) -> &[u8]
    ensures { result.now ≡ get_or (fields_of fields.now) place [] }
{
    fields.get(place).unwrap_or(b"")
}

/// What a record of four fields spells as the row of this number, as `read_register` reads it. The first fault of the
/// record decides: 3 Kind, 4 Prefix, 5 Name or 6 Address of this row; 9 Memory where memory runs out.
pub fn read_row(alloc: Global, row: u32, fields: &ByteRecord) -> Result<Row, ReadFault>
    requires row { row ≤ most_rows }
    requires four { length (fields_of fields.now) ≡ 4 }
    ensures { UnlessMemory result (row_in row (fields_of fields.now)) }
{
    let kind = read_kind(row, field(fields, 0))?;
    let behind = Fields {
        row,
        prefix: field(fields, 1),
        group: field(fields, 2),
        addresses: field(fields, 3),
    };
    behind.read(alloc, kind)
}

/// Nothing where the first record names the columns, else Columns.
pub(crate) fn read_columns(fields: &ByteRecord) -> Result<(), ReadFault>
    ensures { result ≡ columns_in (fields_of fields.now) }
{
    if are_columns(fields) {
        Ok(())
    } else {
        Err(ReadFault::Columns)
    }
}

/// Whether a record names the columns.
fn are_columns(fields: &ByteRecord) -> bool
    ensures { result ≡ are_columns_of (fields_of fields.now) }
{
    fields.len() == 4
        && field(fields, 0) == b"kind".as_slice()
        && field(fields, 1) == b"prefix".as_slice()
        && field(fields, 2) == b"group".as_slice()
        && field(fields, 3) == b"addresses".as_slice()
}
