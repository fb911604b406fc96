//! The register from CSV (RFC 4180), record after record.

ghost use Rattle.std.specs.Prelude.{◌≡◌, ◌+◌, ℕ, List, Some, None, IfOk, IfErr, IfSome, length, take, true};
ghost use Rattle.csv.specs.Reading.{default_config, expected_len, has_failed, records, strip_bom};
ghost use Rattle.csv.specs.Records.{fields_of};
ghost use Rattle.ddt_register.specs.Left.{IsReading, IsLeft, TakesRecord, csv_fault, stops};
ghost use Rattle.ddt_register.specs.Rows.{most_rows};
ghost use Rattle.ddt_register.specs.Spelled.{spelled, rows_in, unless_too_many as unless_too_many_of, Gives};

use crate::csv_row::{read_columns, read_row};
use crate::fault::ReadFault;
use crate::items::Items;
use crate::register::{MOST_ROWS, Register};
use csv::{ByteRecord, ErrorKind, Reader, ReaderBuilder};
use std::alloc::Global;
use std::io::Read;

/// What an error of csv is in this row. Only other numbers of fields come of records of bytes, beside a failed reader
/// and running out of memory.
fn fault_of(kind: &ErrorKind, row: u32) -> ReadFault
    ensures { result ≡ csv_fault row kind.now }
{
    match kind {
        ErrorKind::Io(_) => ReadFault::Read,
        ErrorKind::OutOfMemory => ReadFault::Memory,
        ErrorKind::UnequalLengths { .. }
        | ErrorKind::Utf8 { .. }
        | ErrorKind::Serialize(_)
        | ErrorKind::Deserialize { .. } => ReadFault::Csv(row),
    }
}

/// Reads the next record, and answers whether there was one. A record of another length than the first is refused as
/// 1 Csv of this row.
fn next_record<R: Read>(
    reader: &mut Reader<R>,
    fields: &mut ByteRecord,
    row: u32,
) -> Result<bool, ReadFault>
    requires { IsReading reader.old }
    ensures takes { (left : List (List (List ℕ))) → IsLeft R.remaining reader.old left
        → TakesRecord R.remaining reader.old
        reader.new row (fields_of fields.new) left result }
    ensures stopped { IfErr result (λ fault. stops fault ≡ has_failed reader.new) }
    ensures reading { IfOk result (λ found. found ≡ true → IsReading reader.new) }
    ensures expected { IfOk result (λ found. found ≡ true → expected_len reader.new
        ≡ Some (length (fields_of fields.new))) }
    ensures same { IfOk result (λ found. found ≡ true → IfSome (expected_len reader.old) (λ len.
        expected_len reader.new ≡ Some len)) }
{
    match reader.read_byte_record(fields) {
        Ok(found) => Ok(found),
        Err(error) => Err(fault_of(error.kind(), row)),
    }
}

/// Nothing where no row was found past the last that there may be, else 7 TooMany.
fn unless_too_many(past: bool) -> Result<(), ReadFault>
    ensures { result ≡ unless_too_many_of past }
{
    if past {
        Err(ReadFault::TooMany)
    } else {
        Ok(())
    }
}

/// The register that the rows spell, numbered from 1.
fn read_rows<R: Read + Drop>(
    alloc: Global,
    mut reader: Reader<R>,
    mut fields: ByteRecord,
) -> Result<Register, ReadFault>
    requires reading { IsReading reader }
    requires columns { expected_len reader ≡ Some 4 }
    ensures { (left : List (List (List ℕ))) → IsLeft R.remaining reader left → Gives result (rows_in 1 left) }
{
    let mut items = Items::new(alloc);
    for row in 1..MOST_ROWS + 1 {
        if !next_record(&mut reader, &mut fields, row)? {
            return Ok(items.into_register());
        }
        items.push(read_row(alloc, row, &fields)?)?;
    }
    let past = next_record(&mut reader, &mut fields, MOST_ROWS + 1)?;
    unless_too_many(past)?;
    Ok(items.into_register())
}

/// The register that the records spell.
fn read_records<R: Read + Drop>(alloc: Global, mut reader: Reader<R>) -> Result<Register, ReadFault>
    requires reading { IsReading reader }
    requires first { expected_len reader ≡ None }
    ensures { (left : List (List (List ℕ))) → IsLeft R.remaining reader left → Gives result (spelled left) }
{
    let mut fields = ByteRecord::new(alloc);
    if !next_record(&mut reader, &mut fields, 0)? {
        return Ok(Items::new(alloc).into_register());
    }
    read_columns(&fields)?;
    read_rows(alloc, reader, fields)
}

/// The register that a CSV text spells: commas between fields, quotes around a field that holds a comma, a quote or a
/// line end, as many fields in each record as in the first. That one names the columns, `kind,prefix,group,addresses`,
/// and the records behind it are the rows, from 1 on. A source without any record spells the register without items.
/// Zones, sites and groups come in the order of their rows.
///
/// The first record with a fault decides. Refused, within a record in this order:
///
/// - 1 Csv: the row has another number of fields than the first record.
/// - 2 Columns: the first record isn't the one above.
/// - 7 TooMany: it is the 65,536th row.
/// - 3 Kind: the kind is none of `group-node`, `group-ms`, `node`, `ms` and `site`.
/// - 4 Prefix: the field is no prefix, or a group's isn't empty.
/// - 5 Name: the field is no group's name, or a site's isn't empty.
/// - 6 Address: an address is wrong, or a zone's field isn't empty.
///
/// Refused as 8 Read where the reader fails, and as 9 Memory where memory runs out. No other answer depends on what
/// follows the 65,537th record.
pub fn read_register<R: Read + Drop>(alloc: Global, reader: R) -> Result<Register, ReadFault>
    ensures spelled { (bytes : List ℕ) → R.remaining reader ≡ Some bytes
        → Gives result (spelled (records default_config (strip_bom bytes))) }
    // The record of the columns, the rows that there may be, and one more, which is too many.
    ensures front { (bytes : List ℕ) → R.remaining reader ≡ Some bytes
        → Gives result (spelled (take (most_rows + 2) (records default_config (strip_bom bytes)))) }
{
    let reader = ReaderBuilder::new()
        .has_headers(false)
        .from_reader(alloc, reader);
    read_records(alloc, reader)
}
