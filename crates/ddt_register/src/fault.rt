//! Why CSV records spell no register.

ghost use Rattle.std.specs.Prelude.{◌≡◌};
ghost use Rattle.ddt_register.specs.Spelled.{fault_row};

use std::alloc::AllocError;
use thiserror::Error;

/// The first fault of a register's text, at its row where it has one. Rows are numbered from 1, after the record that
/// names the columns.
#[derive(Clone, Copy, Debug, PartialEq, Eq, Error)]
pub enum ReadFault {
    /// The row has another number of fields than the first record.
    #[error("1 Csv")]
    Csv(u32),
    /// The first record isn't `kind,prefix,group,addresses`.
    #[error("2 Columns")]
    Columns,
    /// The kind is none of the five.
    #[error("3 Kind")]
    Kind(u32),
    /// The prefix isn't spelled by the field, or the field must be empty and isn't.
    #[error("4 Prefix")]
    Prefix(u32),
    /// The group isn't a name, or the field must be empty and isn't.
    #[error("5 Name")]
    Name(u32),
    /// The addresses aren't locators with one space between them, or the field must be empty and isn't.
    #[error("6 Address")]
    Address(u32),
    /// There are more than 65,535 rows.
    #[error("7 TooMany")]
    TooMany,
    /// The reader failed.
    #[error("8 Read")]
    Read,
    /// Memory ran out.
    #[error("9 Memory")]
    Memory,
}

impl ReadFault {
    /// The row of the fault, 1 to 65,536; None where the fault is of no row.
    pub fn row(&self) -> Option<u32>
        ensures { result ≡ fault_row self.now }
    {
        match *self {
            ReadFault::Csv(row)
            | ReadFault::Kind(row)
            | ReadFault::Prefix(row)
            | ReadFault::Name(row)
            | ReadFault::Address(row) => Some(row),
            ReadFault::Columns | ReadFault::TooMany | ReadFault::Read | ReadFault::Memory => None,
        }
    }
}

impl From<AllocError> for ReadFault {
    ghost use Rattle.std.specs.Prelude.{◌≡◌};
    ghost use Rattle.ddt_register.specs.declared.fault.ReadFault.TheVariants.{Memory};

    ghost from_gives = { λ _ e. e ≡ Memory };

    fn from(_error: AllocError) -> ReadFault {
        ReadFault::Memory
    }
}
