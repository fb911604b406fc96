//! The lenient reader of a register's file.

ghost use Rattle.std.specs.Prelude.{◌≡◌, ◌≤◌, IfErr, length, true};
ghost use Rattle.csv.specs.Records.{fields_of};
ghost use Rattle.ddt_register.specs.Left.{stops};
ghost use Rattle.ddt_register.specs.Rows.{most_rows};

use crate::sheets::columns::{Columns, Head, read_head};
use crate::sheets::difference::Difference;
use crate::sheets::difference_notes::DifferenceNotes;
use crate::sheets::divider::divider_of;
use crate::sheets::encodings::{
    decode_utf16, ends_by_returns, utf16_of, with_line_feeds, without_mark,
};
use crate::sheets::line_numbers::LineCursor;
use crate::sheets::open_quote::{OpenQuote, open_quote};
use crate::sheets::rows::Rows;
use crate::sheets::sheet::Sheet;
use crate::sheets::unread_records::{UnreadRecord, other_length, too_many, unclosed, wrong_field};
use csv::{ByteRecord, ErrorKind, ReaderBuilder};
use ddt_register::{MOST_ROWS, ReadFault, read_row};
use std::alloc::{AllocError, Global};

/// How far a file is read.
#[derive(Clone, Copy)]
enum Stage {
    /// The next record is the first.
    Head,
    /// The next record is a row.
    Rows(Columns),
    /// There are too many rows, and no more are read.
    Full,
    /// A column is missing, and no row is read.
    Without,
}

/// The state of reading a file.
#[derive(Drop)]
struct SheetReader<'a> {
    alloc: Global,
    count: LineCursor<'a>,
    /// The quote that isn't closed, if there is one.
    quote: Option<OpenQuote>,
    stage: Stage,
    notes: DifferenceNotes,
    unread: Vec<UnreadRecord>,
    lines: Vec<u64>,
    rows: Rows,
}

/// The place of the first field of a record that has blanks around it.
fn padded_place(record: &ByteRecord) -> Option<usize> {
    record.into_iter().position(is_padded)
}

fn is_padded(field: &[u8]) -> bool {
    field.trim_ascii().len() != field.len()
}

/// Whether a record is a line without a text.
fn is_blank(record: &ByteRecord) -> bool {
    record.len() == 1 && record.get(0).is_some_and(|field| field.is_empty())
}

/// The fault with which `ddt` refuses a row whose field in this column, from 0, is wrong.
fn fault_in(row: u32, column: Option<usize>) -> ReadFault {
    match column {
        Some(0) => ReadFault::Kind(row),
        Some(1) => ReadFault::Prefix(row),
        Some(2) => ReadFault::Name(row),
        Some(3) => ReadFault::Address(row),
        _ => ReadFault::Csv(row),
    }
}

impl<'a> SheetReader<'a> {
    fn new(alloc: Global, text: &'a [u8], divider: u8, notes: DifferenceNotes) -> SheetReader<'a> {
        SheetReader {
            alloc,
            count: LineCursor::new(text),
            quote: open_quote(text, divider),
            stage: Stage::Head,
            notes,
            unread: Vec::new(alloc),
            lines: Vec::new(alloc),
            rows: Rows::new(alloc),
        }
    }

    /// Reads the next record.
    fn take(&mut self, mut record: ByteRecord) -> Result<(), ReadFault>
        ensures stopped { IfErr result (λ fault. stops fault ≡ true) }
    {
        self.go_to(&record)?;
        if let Some(quote) = self.quote_here() {
            return self.take_unclosed(&record, quote);
        }
        if let Some(place) = padded_place(&record) {
            record.trim()?;
            let fault = self.blanks_fault(&record, place);
            self.notes.note_blanks(self.count.line(), fault)?;
            if is_blank(&record) {
                return Ok(());
            }
        }
        match self.stage {
            Stage::Head => self.take_head(&record),
            Stage::Rows(columns) => self.take_row(columns, &record),
            Stage::Full | Stage::Without => Ok(()),
        }
    }

    /// The quote that isn't closed, if it is in the next record and this record is read.
    fn quote_here(&self) -> Option<OpenQuote> {
        let quote = self.quote?;
        match self.stage {
            Stage::Head | Stage::Rows(_) if quote.record == self.count.place() => Some(quote),
            _ => None,
        }
    }

    /// Reads the record in which a quote isn't closed, which is the last.
    fn take_unclosed(&mut self, record: &ByteRecord, quote: OpenQuote) -> Result<(), ReadFault>
        ensures stopped { IfErr result (λ fault. stops fault ≡ true) }
    {
        let (row, begin) = (self.next_row(), self.count.line());
        let line = self.count.line_at(quote.place);
        let lines = self.count.lines_after(quote.place);
        self.stage = Stage::Full;
        self.push_line(begin)?;
        self.push_unread(unclosed(self.alloc, row, line, record, lines)?)?;
        Ok(())
    }

    /// Counts the lines up to a record, and notes a comment before it.
    fn go_to(&mut self, record: &ByteRecord) -> Result<(), AllocError> {
        let Some(position) = record.position() else {
            return Ok(());
        };
        match self.count.go_to_record(position.byte() as usize) {
            Some(comment) => self.notes.note_comment(comment),
            None => Ok(()),
        }
    }

    /// The fault with which `ddt` refuses blanks around the field of the next record at a place.
    fn blanks_fault(&self, record: &ByteRecord, place: usize) -> ReadFault {
        match self.stage {
            Stage::Rows(columns) if !is_blank(record) => {
                fault_in(self.next_row(), columns.column_at(place))
            }
            Stage::Rows(_) | Stage::Full => ReadFault::Csv(self.next_row()),
            Stage::Head | Stage::Without => ReadFault::Columns,
        }
    }

    /// The number of the next row, at most 65,536.
    fn next_row(&self) -> u32 {
        match u32::try_from(self.lines.len()) {
            Ok(rows) if rows < MOST_ROWS => rows + 1,
            _ => MOST_ROWS + 1,
        }
    }

    /// Reads the first record.
    fn take_head(&mut self, record: &ByteRecord) -> Result<(), ReadFault>
        ensures stopped { IfErr result (λ fault. stops fault ≡ true) }
    {
        let line = self.count.line();
        match read_head(record) {
            Head::Columns(columns) => {
                let differences = columns.differences(self.alloc, record)?;
                self.notes.note_all(line, differences)?;
                self.stage = Stage::Rows(columns);
            }
            Head::Without(name) => {
                self.notes.note(line, Difference::NoColumn(name))?;
                self.stage = Stage::Without;
            }
            Head::Row => {
                self.notes.note(line, Difference::NoHead)?;
                self.stage = Stage::Rows(Columns::usual());
                self.take_row(Columns::usual(), record)?;
            }
        }
        Ok(())
    }

    /// Reads a record after the first.
    fn take_row(&mut self, columns: Columns, record: &ByteRecord) -> Result<(), ReadFault>
        ensures stopped { IfErr result (λ fault. stops fault ≡ true) }
    {
        let (row, line) = (self.next_row(), self.count.line());
        if row > MOST_ROWS {
            self.stage = Stage::Full;
            self.push_unread(too_many(self.alloc, line, record)?)?;
            return Ok(());
        }
        self.push_line(line)?;
        let fields = columns.ordered(self.alloc, record)?;
        if record.len() != columns.count() {
            let lengths = (record.len(), columns.count());
            self.push_unread(other_length(self.alloc, row, line, &fields, lengths)?)?;
            return Ok(());
        }
        self.take_fields(row, &fields)
    }

    fn push_line(&mut self, line: u64) -> Result<(), AllocError> {
        self.lines.push(line)?;
        Ok(())
    }

    fn push_unread(&mut self, unread: UnreadRecord) -> Result<(), AllocError> {
        self.unread.push(unread)?;
        Ok(())
    }

    /// Reads the four fields of a row.
    fn take_fields(&mut self, row: u32, fields: &ByteRecord) -> Result<(), ReadFault>
        requires row { row ≤ most_rows }
        requires four { length (fields_of fields.now) ≡ 4 }
        ensures stopped { IfErr result (λ fault. stops fault ≡ true) }
    {
        match read_row(self.alloc, row, fields) {
            Ok(item) => self.rows.push(item)?,
            Err(ReadFault::Memory) => return Err(ReadFault::Memory),
            Err(fault) => {
                let unread = wrong_field(self.alloc, self.count.line(), fields, fault)?;
                self.push_unread(unread)?;
            }
        }
        Ok(())
    }

    /// What was read.
    fn into_sheet(self) -> Sheet {
        let SheetReader {
            stage,
            notes,
            unread,
            lines,
            rows,
            ..
        } = self;
        let register = match stage {
            Stage::Without => None,
            Stage::Head | Stage::Rows(_) | Stage::Full => rows.into_register(),
        };
        Sheet {
            differences: notes.into_noted(),
            unread,
            lines,
            register,
        }
    }
}

/// The fault of an error of csv: out of memory, or the reader failed.
fn stopped_by(error: &csv::Error) -> ReadFault
    ensures { stops result ≡ true }
{
    match error.kind() {
        ErrorKind::OutOfMemory => ReadFault::Memory,
        _ => ReadFault::Read,
    }
}

/// The sheet that a text in UTF-8 spells, with the differences so far.
fn read_text(alloc: Global, text: &[u8], notes: DifferenceNotes) -> Result<Sheet, ReadFault>
    ensures stopped { IfErr result (λ fault. stops fault ≡ true) }
{
    let text = without_mark(text);
    if ends_by_returns(text) {
        let text = with_line_feeds(alloc, text)?;
        return read_lines(alloc, &text, notes);
    }
    read_lines(alloc, text, notes)
}

/// The sheet that lines spell, with the differences so far.
fn read_lines(alloc: Global, text: &[u8], mut notes: DifferenceNotes) -> Result<Sheet, ReadFault>
    ensures stopped { IfErr result (λ fault. stops fault ≡ true) }
{
    let divider = divider_of(text);
    match divider {
        b';' => notes.note(1, Difference::Semicolons)?,
        b'\t' => notes.note(1, Difference::Tabs)?,
        _ => {}
    }
    let records = ReaderBuilder::new()
        .has_headers(false)
        .flexible(true)
        .delimiter(divider)
        .comment(Some(b'#'))
        .from_reader(alloc, text)
        .into_byte_records();
    let mut reader = SheetReader::new(alloc, text, divider, notes);
    for record in records {
        reader.take(record.map_err(|error| stopped_by(&error))?)?;
    }
    Ok(reader.into_sheet())
}

/// The sheet that a file spells. Refused as 8 Read if the reader fails, and as 9 Memory if out of memory.
pub(crate) fn read_sheet(alloc: Global, bytes: &[u8]) -> Result<Sheet, ReadFault>
    ensures stopped { IfErr result (λ fault. stops fault ≡ true) }
{
    let mut notes = DifferenceNotes::new(alloc);
    match utf16_of(bytes) {
        Some((order, units)) => {
            notes.note(1, Difference::Utf16(order))?;
            let text = decode_utf16(alloc, order, units)?;
            read_text(alloc, text.as_bytes(), notes)
        }
        None => read_text(alloc, bytes, notes),
    }
}
