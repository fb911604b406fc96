//! The places of the four columns, by the names in the first record.

ghost use Rattle.std.specs.Prelude.{◌≡◌, length, IfOk};
ghost use Rattle.csv.specs.Records.{fields_of};

use crate::sheets::difference::Difference;
use crate::sheets::kind::RecordKind;
use crate::sheets::printed::printed;
use csv::ByteRecord;
use std::alloc::{AllocError, Global};

/// The names of the columns, in the order in which a register has them.
const COLUMNS: [&str; 4] = ["kind", "prefix", "group", "addresses"];

/// The place of each of the four columns in a record, and the number of fields of a record.
#[derive(Clone, Copy)]
pub(crate) struct Columns {
    places: [usize; 4],
    count: usize,
}

/// What the first record is.
#[derive(Clone, Copy)]
pub(crate) enum Head {
    /// It names the columns.
    Columns(Columns),
    /// It is a row already.
    Row,
    /// It lacks the column of this name.
    Without(&'static str),
}

impl Columns {
    /// The columns of a register.
    pub(crate) fn usual() -> Columns {
        Columns {
            places: [0, 1, 2, 3],
            count: 4,
        }
    }

    /// How many fields a record has.
    pub(crate) fn count(&self) -> usize {
        self.count
    }

    /// The fields of a record in the order of a register, empty past its last. Fails only if out of memory.
    pub(crate) fn ordered(
        &self,
        alloc: Global,
        record: &ByteRecord,
    ) -> Result<ByteRecord, AllocError>
        ensures { IfOk result (λ fields. length (fields_of fields) ≡ 4) }
    {
        let [kind, prefix, group, addresses] = self.places;
        ByteRecord::from_fields(
            alloc,
            &[
                field(record, kind),
                field(record, prefix),
                field(record, group),
                field(record, addresses),
            ],
        )
    }

    /// The column at a place of a record, both from 0; None if it is none of the four.
    pub(crate) fn column_at(&self, place: usize) -> Option<usize> {
        self.places.iter().position(|at| *at == place)
    }

    /// Whether the columns are in the order of a register.
    fn are_in_order(&self) -> bool {
        let [kind, prefix, group, addresses] = self.places;
        kind < prefix && prefix < group && group < addresses
    }

    /// Whether the record that names the columns writes one of them with capital letters.
    fn have_capitals(&self, record: &ByteRecord) -> bool {
        self.places.iter().zip(&COLUMNS).any(|(place, name)| is_in_capitals(
            field(record, *place),
            name.as_bytes(),
        ))
    }

    /// How the record that names the columns differs. Fails only if out of memory.
    pub(crate) fn differences(
        &self,
        alloc: Global,
        record: &ByteRecord,
    ) -> Result<Vec<Difference>, AllocError> {
        let mut differences = Vec::new(alloc);
        if self.count == COLUMNS.len() {
            push_other_names(alloc, record, &mut differences)?;
        } else {
            differences.push(Difference::MoreColumns(self.count))?;
        }
        if self.have_capitals(record) {
            differences.push(Difference::Capitals)?;
        }
        if !self.are_in_order() {
            differences.push(Difference::Order)?;
        }
        Ok(differences)
    }
}

/// Adds each field of a record that isn't the name of a column. Fails only if out of memory.
fn push_other_names(
    alloc: Global,
    record: &ByteRecord,
    differences: &mut Vec<Difference>,
) -> Result<(), AllocError> {
    for name in record {
        if !is_column(name) {
            differences.push(Difference::Name(printed(alloc, name)?))?;
        }
    }
    Ok(())
}

/// Whether two names differ, but only in capital letters.
fn is_in_capitals(text: &[u8], name: &[u8]) -> bool {
    text != name && text.eq_ignore_ascii_case(name)
}

/// Whether a text is the name of a column, without regard to capital letters.
fn is_column(text: &[u8]) -> bool {
    COLUMNS
        .iter()
        .any(|name| text.eq_ignore_ascii_case(name.as_bytes()))
}

/// The field at a place of a record, empty past its last field.
pub(crate) fn field(record: &ByteRecord, place: usize) -> &[u8] {
    record.get(place).unwrap_or(b"")
}

/// The place of the column of a name in a record, without regard to capital letters.
fn place_of(record: &ByteRecord, name: &str) -> Option<usize> {
    (0..record.len()).find(|place| field(record, *place).eq_ignore_ascii_case(name.as_bytes()))
}

/// The place of the column with another name that replaces a missing column, in a record of four fields. `missing`
/// counts the missing columns from 0.
fn stand_in(record: &ByteRecord, missing: usize) -> Option<usize> {
    if record.len() != COLUMNS.len() {
        return None;
    }
    (0..record.len())
        .filter(|place| !is_column(field(record, *place)))
        .nth(missing)
}

/// What the first record is. If it has four fields, those with other names replace the missing columns, in order.
pub(crate) fn read_head(record: &ByteRecord) -> Head {
    if RecordKind::named(field(record, 0)).is_some() {
        return Head::Row;
    }
    let mut columns = Columns {
        places: [0; 4],
        count: record.len(),
    };
    let mut missing = 0;
    for (place, name) in columns.places.iter_mut().zip(COLUMNS) {
        if let Some(found) = place_of(record, name) {
            *place = found;
        } else if let Some(found) = stand_in(record, missing) {
            *place = found;
            missing = missing.saturating_add(1);
        } else {
            return Head::Without(name);
        }
    }
    Head::Columns(columns)
}
