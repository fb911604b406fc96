//! How a whole file differs from a register as `ddt` reads it.

use ddt_register::ReadFault;
use std::fmt;

/// Which byte of a code unit of UTF-16 comes first.
#[derive(Clone, Copy, PartialEq, Eq)]
pub(crate) enum ByteOrder {
    LittleEndian,
    BigEndian,
}

/// How a whole file differs. Each difference is reported once, at the line where it is first seen.
#[derive(Drop)]
pub(crate) enum Difference {
    /// The text isn't UTF-8.
    Utf16(ByteOrder),
    /// Fields are divided by semicolons.
    Semicolons,
    /// Fields are divided by tabs.
    Tabs,
    /// The first record is a row, and names no columns.
    NoHead,
    /// The names of the columns have capital letters.
    Capitals,
    /// The four columns are in another order.
    Order,
    /// A column has another name, which is given.
    Name(String),
    /// There are this many columns, the four among them.
    MoreColumns(usize),
    /// The column of this name is missing, so no row is read.
    NoColumn(&'static str),
    /// A field has blanks around it, for which `ddt` refuses the file with this fault.
    Blanks(ReadFault),
    /// A line begins with `#`.
    Comments,
}

impl Difference {
    /// The fault whose number and name the line of the difference has.
    pub(crate) fn fault(&self) -> ReadFault {
        match self {
            Difference::Blanks(fault) => *fault,
            Difference::Comments => ReadFault::Csv(0),
            _ => ReadFault::Columns,
        }
    }
}

impl fmt::Display for Difference {
    fn fmt<W: fmt::Write>(&self, f: &mut fmt::Formatter<W>) -> fmt::Result {
        match self {
            Difference::Utf16(_) => f.write_str("the file is UTF-16 and must be UTF-8"),
            Difference::Semicolons => f.write_str("the fields are divided by semicolons"),
            Difference::Tabs => f.write_str("the fields are divided by tabs"),
            Difference::NoHead => {
                f.write_str("the first record is a row and must be kind,prefix,group,addresses")
            }
            Difference::Capitals => {
                f.write_str("the names of the columns have capital letters and must have none")
            }
            Difference::Order => {
                f.write_str("the columns must stand in the order kind,prefix,group,addresses")
            }
            Difference::Name(name) => write!(
                f,
                "a column is named '{name}'; the columns are kind,prefix,group,addresses"
            ),
            Difference::MoreColumns(count) => write!(f, "{count} columns where there must be 4"),
            Difference::NoColumn(name) => {
                write!(f, "no column is named '{name}', so that no row is read")
            }
            Difference::Blanks(_) => f.write_str("blanks stand around fields"),
            Difference::Comments => f.write_str("a line that begins with # is no row"),
        }
    }
}
